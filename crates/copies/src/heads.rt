// The line before a text, and the text.

/// What a head line tells: the length of the text, and the bytes after the line.
#[derive(Clone, Copy)]
pub struct Head<'a> {
    pub len: usize,
    pub rest: &'a [u8],
}

/// A text, and the bytes after it.
#[derive(Clone, Copy)]
pub struct Part<'a> {
    pub text: &'a [u8],
    pub more: &'a [u8],
}
