// Numbers that words spell.
ghost use Rattle.std.specs.Prelude.{◌≡◌, ℕ, List, Option};
ghost use Rattle.command.specs.Numbers.{AsParsed, count, number};
ghost use Rattle.command.specs.Parsing.{counted, numbered};
ghost use Rattle.std.proofs.Common.{w32, w64};

use std::str::FromStr;

/// Numbers that words spell in decimal, with no plus sign.
pub trait Spelled: FromStr {
    // The number that a word spells.
    ghost spelled: { List ℕ → Option Self };

    // It is the one that `parse` gives.
    ghost parsed: { AsParsed Self.from_str_gives spelled };
}

impl Spelled for i64 {
    ghost spelled = { number 63 };

    ghost parsed = { numbered w64 (λ _ _ h. h.0) };
}

impl Spelled for i32 {
    ghost spelled = { number 31 };

    ghost parsed = { numbered w32 (λ _ _ h. h.0) };
}

impl Spelled for usize {
    ghost spelled = { count };

    ghost parsed = { counted (λ _ _ h. h.0) };
}

/// The number that a word spells, if it spells one.
pub fn parse<T: Spelled>(word: &[u8]) -> Option<T>
where
    T::Err: Drop,
    ensures { result ≡ T.spelled word.now }
{
    if word.starts_with(b"+") {
        return None;
    }
    let text = std::str::from_utf8(word).ok()?;
    text.parse().ok()
}
