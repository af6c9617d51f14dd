// The root.
ghost use Rattle.std.specs.Prelude.{◌+◌, ◌≤◌, length, All, vec_len, vec_capacity};
ghost use Rattle.provider.specs.Meaning.{last_edition};
ghost use Rattle.root.specs.declared.entries.Entry.{Entry};

use super::entries::{Entry, Limits};
use zone::rows::Row;

/// A log of accepted publications, in order: an entry for each, and the rows of all tables one after the other. Both storages are reserved when the root is made.
#[derive(Drop)]
pub struct Root {
    pub(crate) entries: Vec<Entry>,
    pub(crate) rows: Vec<Row>,
    pub(crate) limits: Limits,
    ghost few: { vec_len entries ≤ last_edition },
    ghost reserved: { limits.entries ≤ vec_capacity entries },
    ghost kept: { limits.rows ≤ vec_capacity rows },
    ghost inside: { All (λ (entry : Entry). entry.start + entry.len ≤ length rows.items) entries.items },
}
