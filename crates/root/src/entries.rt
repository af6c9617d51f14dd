// An entry of a root's log.
use names::name::Name;
use provider::requests::Tag;

/// An accepted publication: its name, where its rows begin in the storage of rows and how many there are, and its tag. It has no list of rows of its own, since all memory is reserved when the root is made.
#[derive(Clone, Copy)]
pub struct Entry {
    pub name: Name,
    pub start: usize,
    pub len: usize,
    pub tag: Tag,
}

/// The most entries and the most rows that a root takes.
#[derive(Clone, Copy)]
pub struct Limits {
    pub entries: usize,
    pub rows: usize,
}
