// The first text of the input, by the head line before it.
ghost use Rattle.std.specs.Prelude.{◌≡◌, ◌<◌, ◌≤◌, length, IfSome};
ghost use Rattle.copies.specs.Heads.{counted_after, first, head_seen, most_bytes, one_more, part_seen, told};

use super::heads::{Head, Part};

/// The most bytes that a head line may tell.
const MOST_BYTES: usize = 1_000_000_000;

/// The word before a length, and the space after it.
const WORD: &[u8] = b"text ";

// The number after one more digit.
fn next_number(n: usize, byte: u8) -> Option<usize>
    requires { n ≤ most_bytes }
    ensures { result ≡ one_more n byte }
{
    if !byte.is_ascii_digit() {
        return None;
    }
    let next = 10 * n + (byte - b'0') as usize;
    (next <= MOST_BYTES).then_some(next)
}

// The number that the digits before the first LF spell, and the bytes after the LF. Digit by digit, so that no byte is looked at past the first that is wrong, however far the LF is.
fn count(bytes: &[u8]) -> Option<Head<'_>>
    ensures is { head_seen result ≡ counted_after 0 bytes.now }
    ensures shorter { IfSome result (λ h. length h.rest.now < length bytes.now) }
{
    let mut len = 0;
    for (i, byte) in bytes.iter().enumerate() {
        if *byte == b'\n' {
            let rest = &bytes[i + 1..];
            return Some(Head { len, rest });
        }
        len = next_number(len, *byte)?;
    }
    None
}

// What the head line tells that the bytes begin with, if they begin with one.
fn head(bytes: &[u8]) -> Option<Head<'_>>
    ensures is { head_seen result ≡ told bytes.now }
    ensures shorter { IfSome result (λ h. length h.rest.now < length bytes.now) }
{
    let line = bytes.strip_prefix(WORD)?;
    if line.is_empty() || !line[0].is_ascii_digit() {
        return None;
    }
    count(line)
}

/// The text that the input begins with, after its head line, and the bytes after it; none where the input begins with no head line, or has fewer bytes than it tells.
pub fn first_text(input: &[u8]) -> Option<Part<'_>>
    ensures is { part_seen result ≡ first input.now }
    ensures shorter { IfSome result (λ p. length p.more.now < length input.now) }
{
    let head = head(input)?;
    let (text, more) = head.rest.split_at_checked(head.len)?;
    Some(Part { text, more })
}
