// A text that was read.
use names::name::Name;

/// A text that was read: its zone's name, and how many bytes came when what was read was written again, if they were the text's.
#[derive(Clone, Copy)]
pub struct Copied {
    pub name: Name,
    pub written: Option<usize>,
}
