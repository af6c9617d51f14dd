// The latest entry of a name, and the rows of an entry.
ghost use Rattle.std.specs.Prelude.{◌≡◌, List, Contains, IfSome, vec_len};
ghost use Rattle.std.specs.Option.{option_map};
ghost use Rattle.zone.specs.declared.rows.Row.{Row};
ghost use Rattle.root.specs.Logs.{latest, log, publication};

use super::entries::Entry;
use super::roots::Root;
use names::name::Name;
use provider::requests::Edition;
use zone::rows::Row;

// The latest entry of the name, by a `for` over the entries: it is a rule of the project that the log is searched so.
pub(crate) fn latest_of<'a>(entries: &'a [Entry], name: &Name) -> Option<&'a Entry>
    ensures within { IfSome result (λ entry. Contains entries.now entry.now) }
    ensures latest { (storage : List Row) → latest name.now (log entries.now storage) ≡ option_map (λ entry. publication storage entry.now) result }
{
    let mut latest = None;
    for entry in entries {
        if entry.name == *name {
            latest = Some(entry);
        }
    }
    latest
}

impl Root {
    // The number of the latest edition, 0 where there is none.
    pub(crate) fn count(&self) -> Edition
        ensures { result ≡ vec_len self.now.entries }
    {
        self.entries.len() as u16
    }

    // The rows of an entry of the log.
    pub(crate) fn rows_of(&self, entry: &Entry) -> &[Row]
        requires { Contains self.now.entries.items entry.now }
        ensures { result.now ≡ (publication self.now.rows.items entry.now).rows }
    {
        &self.rows[entry.start..entry.start + entry.len]
    }
}
