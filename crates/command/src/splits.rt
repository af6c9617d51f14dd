// Bytes split at a byte, and leading spaces.
ghost use Rattle.std.specs.Prelude.{◌≡◌, ◌<◌, length};
ghost use Rattle.command.specs.Words.{after, before, trimmed};

/// The bytes before the first such byte, and those after it.
pub fn split(bytes: &[u8], mark: u8) -> (&[u8], &[u8])
    ensures front { result.0.now ≡ before mark bytes.now }
    ensures back { result.1.now ≡ after mark bytes.now }
    ensures shorter { 0 < length bytes.now → length result.1.now < length bytes.now }
{
    match bytes.iter().position(|byte| *byte == mark) {
        Some(n) => (&bytes[..n], &bytes[n + 1..]),
        None => (bytes, &bytes[bytes.len()..]),
    }
}

// The bytes from the first on that is no space.
pub(crate) fn trim(bytes: &[u8]) -> &[u8]
    ensures { result.now ≡ trimmed bytes.now }
{
    match bytes.iter().position(|byte| *byte != b' ') {
        Some(n) => &bytes[n..],
        None => &bytes[bytes.len()..],
    }
}
