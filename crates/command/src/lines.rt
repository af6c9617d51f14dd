// What a line of a script says.
use client::listing::Call;
use names::name::Name;
use zone::rows::{Interval, Row};

// No type of the root's: a script is read without the root.
/// The storage of the root: so many entries, and so many rows.
#[derive(Clone, Copy)]
pub struct Storage {
    pub entries: usize,
    pub rows: usize,
}

/// A zone and an interval.
#[derive(Clone, Copy)]
pub struct Stay {
    pub name: Name,
    pub interval: Interval,
}

/// A line of a script that is neither blank nor a comment.
#[derive(Clone, Copy)]
pub enum Command {
    /// `root ENTRIES ROWS`: the root's storage.
    Store(Storage),
    /// `span START END`: the truncation's span.
    Truncate(Interval),
    // These two have no marks with them: each function that makes a command would carry the line's lifetime.
    /// `uplink MARKS`: the fates of the line below the relay; the marks are the line's second word.
    Uplink,
    /// `downlink MARKS`: those of the line above the relay.
    Downlink,
    /// `row ONSET FROM TO DAY`: one more row.
    Gather(Row),
    /// `publish NAME START END`: the rows so far are a table over the interval.
    Publish(Stay),
    /// `begin`, `collect`, `abandon`, `forget` or `query`: a call on the client.
    Make(Call),
}
