// Publications put into a root's log.
ghost use Rattle.std.specs.Prelude.{◌≡◌, ◌+◌, ◌<◌, ◌≤◌, ◌&&◌, [], ◌∷◌, ◌++◌, length, vec_len, vec_capacity, nat_lt};
ghost use Rattle.provider.specs.Meaning.{last_edition};
ghost use Rattle.root.specs.Logs.{tag_for};
ghost use Rattle.root.specs.Roots.{Added, has_room, log_of};

use super::entries::Entry;
use super::looking::latest_of;
use super::roots::Root;
use names::name::Name;
use provider::requests::{Edition, Tag};
use zone::comparing::same_rows;
use zone::rows::Row;
use zone::windows::Table;

/// The highest number of an edition.
pub const LAST_EDITION: usize = 65_535;

// Puts the rows after those that are stored. A `for` with `push_reserved`: it is a rule of the project that rows are walked so, and that no memory is asked for here.
fn store(rows: &[Row], storage: &mut Vec<Row>)
    requires { vec_len storage.old + length rows.now ≤ vec_capacity storage.old }
    ensures items { storage.new.items ≡ storage.old.items ++ rows.now }
    ensures capacity { vec_capacity storage.new ≡ vec_capacity storage.old }
{
    for row in rows {
        storage.push_reserved(*row);
    }
}

impl Root {
    // Whether an entry, so many rows and an edition's number are unused.
    pub(crate) fn takes(&self, rows: usize) -> bool
        ensures { result ≡ (has_room self.now rows && nat_lt (vec_len self.now.entries) last_edition) }
    {
        self.entries.len() < self.limits.entries
            && self.rows.len() <= self.limits.rows
            && rows <= self.limits.rows - self.rows.len()
            && self.entries.len() < LAST_EDITION
    }

    // That a number is left is asked by the three that count on it: a root may also be full.
    // The tag of rows that are published next for the name.
    fn next_tag(&self, name: &Name, rows: &[Row]) -> Tag
        requires { vec_len self.now.entries < last_edition }
        ensures { result ≡ tag_for (log_of self.now) name.now rows.now }
    {
        let number = self.count() + 1;
        match latest_of(&self.entries, name) {
            Some(entry) if same_rows(self.rows_of(entry), rows) => entry.tag,
            _ => number,
        }
    }

    // The entry of rows that are published next for the name.
    fn next_entry(&self, name: Name, rows: &[Row]) -> Entry
        requires { vec_len self.now.entries < last_edition }
        ensures { result ≡ record { name = name; start = vec_len self.now.rows; len = length rows.now; tag = tag_for (log_of self.now) name rows.now } }
    {
        Entry {
            name,
            start: self.rows.len(),
            len: rows.len(),
            tag: self.next_tag(&name, rows),
        }
    }

    // Puts one publication more into the log, and answers its number.
    pub(crate) fn add(&mut self, name: Name, table: &Table) -> Edition
        requires entry { vec_len self.old.entries < self.old.limits.entries }
        requires rows { vec_len self.old.rows + length table.now.rows.items ≤ self.old.limits.rows }
        requires number { vec_len self.old.entries < last_edition }
        ensures number { result ≡ vec_len self.old.entries + 1 }
        ensures added { Added self.old name table.now self.new }
    {
        let rows = table.rows.as_slice();
        let entry = self.next_entry(name, rows);
        store(rows, &mut self.rows);
        self.entries.push_reserved(entry);
        self.count()
    }
}
