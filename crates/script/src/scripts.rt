// A script: how the stack is set up, and the calls on the client.
use client::listing::Entry;
use command::lines::Storage;
use zone::rows::{Interval, Row};

/// How the stack is set up: the root's storage, the truncation's span, and the marks of the two lines.
#[derive(Clone, Copy)]
pub struct Setup<'a> {
    pub storage: Storage,
    pub span: Interval,
    pub uplink: &'a [u8],
    pub downlink: &'a [u8],
}

/// A script that was read: the setup, the calls in order, and the name of each as it stands in the script.
#[derive(Drop)]
pub struct Script<'a> {
    pub setup: Setup<'a>,
    // The names stand in a list of their own: the client takes the calls as a slice of entries, and of a list of both one would have to be made, which takes memory.
    pub entries: Vec<Entry>,
    pub names: Vec<&'a [u8]>,
}

// Calls and names in two lists, as `Script` has them.
/// A script while it is read: what was set so far, the rows gathered for the next table, and the calls so far with their names.
#[derive(Drop)]
pub struct Draft<'a> {
    pub storage: Option<Storage>,
    pub span: Option<Interval>,
    pub uplink: Option<&'a [u8]>,
    pub downlink: Option<&'a [u8]>,
    pub rows: Vec<Row>,
    pub entries: Vec<Entry>,
    pub names: Vec<&'a [u8]>,
}

/// Why a script was not read.
#[derive(Clone, Copy, PartialEq, Eq, Debug)]
pub enum Fault {
    /// The line with this number, counted from 1, is not understood.
    NotUnderstood { line: usize },
    /// There is no memory for what was read.
    NoMemory,
}

/// What a line says may not be said there.
#[derive(Clone, Copy, PartialEq, Eq, Debug)]
pub(crate) struct Misplaced;

// Beside `Fault`: the number of a line is known to the loop over the lines alone.
/// Why a line was not taken.
#[derive(Clone, Copy, PartialEq, Eq, Debug)]
pub(crate) enum Trouble {
    /// It is no command, or stands where it may not.
    NotUnderstood,
    /// There is no memory for what it says.
    NoMemory,
}
