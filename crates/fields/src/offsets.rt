// Offsets from UTC, read from their texts and printed.
// Functions and no `TryFrom`: it would need an error type that says no more than `None` does, and stamps, whose type is another crate's, cannot have it. The digits are put one by one: a text has a fixed place for each, and takes no heap.
ghost use Rattle.std.specs.Prelude.{◌≡◌, ◌<◌};
ghost use Rattle.fields.specs.Offsets.{ClockRead, Printed, Signed, parsed};

use super::digits::{ones, tens, two_digits};
use super::types::{Offset, OffsetText};

/// The offset whose text this is.
pub fn parse_offset(text: &[u8]) -> Option<Offset>
    ensures { result ≡ parsed text.now }
{
    let size = clock(text)?;
    signed(text[0], size)
}

/// The seconds that the digits after the sign say.
fn clock(text: &[u8]) -> Option<u32>
    ensures { ClockRead text.now result }
{
    if text.len() != 5 && text.len() != 7 {
        return None;
    }
    let h = two_digits(text, 1, 24)?;
    let m = two_digits(text, 3, 60)?;
    let n = h as u32 * 3600 + m as u32 * 60;
    if text.len() == 5 {
        return Some(n);
    }
    let s = two_digits(text, 5, 60)?;
    (s > 0).then_some(n + s as u32)
}

/// The offset of this size with this sign; there is no zero below zero.
fn signed(sign: u8, size: u32) -> Option<Offset>
    requires { size < 86400 }
    ensures { Signed sign size result }
{
    match sign {
        b'+' => Some(Offset(size as i32)),
        b'-' if size > 0 => Some(Offset(-(size as i32))),
        _ => None,
    }
}

/// The text of an offset of less than a day.
#[tactic(auto, unfolding(crate::specs::Offsets::printed))]
pub fn print_offset(offset: Offset) -> Option<OffsetText>
    ensures { Printed offset result }
{
    let size = offset.0.unsigned_abs();
    if size >= 86400 {
        return None;
    }
    let sign = if offset.0 < 0 { b'-' } else { b'+' };
    let h = (size / 3600) as u8;
    let m = (size / 60 % 60) as u8;
    let s = (size % 60) as u8;
    let bytes = [sign, tens(h), ones(h), tens(m), ones(m), tens(s), ones(s)];
    let len = if s == 0 { 5 } else { 7 };
    Some(OffsetText { bytes, len })
}
