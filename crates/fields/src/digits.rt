// Numbers of two digits in a text.
ghost use Rattle.std.specs.Prelude.{◌≡◌, ◌+◌, ◌/◌, ◌%◌, ◌<◌, ◌≤◌, length, slice_index};
ghost use Rattle.fields.specs.Digits.{TwoRead};

/// The number below `limit` that the two digits at `at` say.
pub(crate) fn two_digits(text: &[u8], at: usize, limit: u8) -> Option<u8>
    requires { (at + 1 < length text.now) × (limit ≤ 100) }
    ensures { TwoRead (slice_index text.now at) (slice_index text.now (at + 1)) limit result }
{
    let tens = text[at];
    let ones = text[at + 1];
    if !tens.is_ascii_digit() || !ones.is_ascii_digit() {
        return None;
    }
    let n = (tens - b'0') * 10 + (ones - b'0');
    (n < limit).then_some(n)
}

/// The first of the two digits of a number below 100.
pub(crate) fn tens(n: u8) -> u8
    ensures { result ≡ 48 + n / 10 }
{
    b'0' + n / 10
}

/// The second of the two digits of a number.
pub(crate) fn ones(n: u8) -> u8
    ensures { result ≡ 48 + n % 10 }
{
    b'0' + n % 10
}
