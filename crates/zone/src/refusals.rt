// Why a call is refused.

/// Every cause for which a call of this library is refused; docs/RULES.md has them as a table.
#[derive(Clone, Copy, PartialEq, Eq, Debug)]
pub enum Refusal {
    /// 1: not a zone name.
    BadName,
    /// 2: the interval does not rise, or lies outside the era.
    BadInterval,
    /// 3: the interval lies outside the span.
    OutsideSpan,
    /// 4: no answer came.
    Silent,
    /// 5: the edition has no page of that name.
    NoPage { edition: u16 },
    /// 6: the cut has more rows than a window holds.
    TooManyRows { edition: u16 },
    /// 7: the edition is lower than the floor.
    BelowFloor { edition: u16 },
    /// 8: the name has a pending fetch already.
    AlreadyPending,
    /// 9: all slots are taken by other names.
    NoFreeSlot,
    /// 10: the slot of the pending fetch is not pending with its interval.
    NotPending,
    /// 11: the name is not held.
    NotHeld,
    /// 12: the instant lies outside the window.
    OutsideWindow,
    /// 13: not a table over the era.
    NotATable,
    /// 14: the table does not fit, or the last edition number is given.
    DoesNotFit,
    /// 15: the text fails at the line that begins at this byte.
    BadText { offset: usize },
    /// 16: the text is longer than the buffer.
    BufferTooShort,
}
