// The number of a refusal, and the text of it.
ghost use Rattle.std.specs.Prelude.{◌≡◌, Some};
ghost use Rattle.zone.specs.Refusals.{number, refusal_text};

use super::refusals::Refusal;
use std::fmt;

// The number of the refusal in the table of refusals.
impl From<Refusal> for u8 {
    ghost from_gives = { λ refusal n. n ≡ number refusal };

    fn from(refusal: Refusal) -> u8 {
        match refusal {
            Refusal::BadName => 1,
            Refusal::BadInterval => 2,
            Refusal::OutsideSpan => 3,
            Refusal::Silent => 4,
            Refusal::NoPage { .. } => 5,
            Refusal::TooManyRows { .. } => 6,
            Refusal::BelowFloor { .. } => 7,
            Refusal::AlreadyPending => 8,
            Refusal::NoFreeSlot => 9,
            Refusal::NotPending => 10,
            Refusal::NotHeld => 11,
            Refusal::OutsideWindow => 12,
            Refusal::NotATable => 13,
            Refusal::DoesNotFit => 14,
            Refusal::BadText { .. } => 15,
            Refusal::BufferTooShort => 16,
        }
    }
}

// As `refused 4`, `refused 5 edition 7` or `refused 15 12`.
impl fmt::Display for Refusal {
    ghost output = { λ refusal. Some (refusal_text refusal) };

    fn fmt<W: fmt::Write>(&self, f: &mut fmt::Formatter<W>) -> fmt::Result {
        let number = u8::from(*self);
        match self {
            Refusal::NoPage { edition }
            | Refusal::TooManyRows { edition }
            | Refusal::BelowFloor { edition } => write!(f, "refused {number} edition {edition}"),
            Refusal::BadText { offset } => write!(f, "refused {number} {offset}"),
            _ => write!(f, "refused {number}"),
        }
    }
}
