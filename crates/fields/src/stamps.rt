// Dates with times, read from their texts and printed.
// Functions and no `TryFrom`: a stamp is another crate's type, so its conversions from and to texts cannot be impls here. The digits are put one by one: a text has a fixed place for each, and takes no heap.
ghost use Rattle.std.specs.Prelude.{◌≡◌};
ghost use Rattle.fields.specs.Stamps.{DigitsRead, StampPrinted, stamp_read};

use super::digits::{ones, tens, two_digits};
use calendar::dates::Stamp;

/// The date with a time whose text this is.
pub fn parse_stamp(text: &[u8]) -> Option<Stamp>
    ensures { result ≡ stamp_read text.now }
{
    stamp_digits(text).filter(|stamp| stamp.is_valid())
}

/// The stamp, perhaps no valid one, that the digits say.
fn stamp_digits(text: &[u8]) -> Option<Stamp>
    ensures { DigitsRead text.now result }
{
    if text.len() != 15 || text[8] != b'T' {
        return None;
    }
    let century = two_digits(text, 0, 100)?;
    let rest = two_digits(text, 2, 100)?;
    let month = two_digits(text, 4, 100)?;
    let day = two_digits(text, 6, 100)?;
    let hour = two_digits(text, 9, 100)?;
    let minute = two_digits(text, 11, 100)?;
    let second = two_digits(text, 13, 100)?;
    let year = century as u16 * 100 + rest as u16;
    Some(Stamp {
        year,
        month,
        day,
        hour,
        minute,
        second,
    })
}

/// The text of a valid date with a time.
#[tactic(auto, unfolding(crate::specs::Stamps::stamp_text))]
pub fn print_stamp(stamp: Stamp) -> Option<[u8; 15]>
    ensures { StampPrinted stamp result }
{
    if !stamp.is_valid() {
        return None;
    }
    let century = (stamp.year / 100) as u8;
    let year = (stamp.year % 100) as u8;
    Some([
        tens(century),
        ones(century),
        tens(year),
        ones(year),
        tens(stamp.month),
        ones(stamp.month),
        tens(stamp.day),
        ones(stamp.day),
        b'T',
        tens(stamp.hour),
        ones(stamp.hour),
        tens(stamp.minute),
        ones(stamp.minute),
        tens(stamp.second),
        ones(stamp.second),
    ])
}
