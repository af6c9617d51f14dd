// An offset from UTC, and the text of one.
ghost use Rattle.std.specs.Prelude.{◌≡◌, ◌≤◌, take};

/// The seconds that local time is ahead of UTC.
#[derive(Clone, Copy, PartialEq, Eq, Debug)]
pub struct Offset(pub i32);

/// The text of an offset: the first `len` of the bytes, five, or seven where it has seconds.
// Bytes with a length, and no `ArrayVec`: a text is `Copy`.
#[derive(Clone, Copy, Debug)]
pub struct OffsetText {
    pub bytes: [u8; 7],
    pub len: usize,
    ghost within: { len ≤ 7 },
}

impl OffsetText {
    /// The text itself.
    pub fn as_slice(&self) -> &[u8]
        ensures { result.now ≡ take self.now.len self.now.bytes }
    {
        &self.bytes[..self.len]
    }
}
