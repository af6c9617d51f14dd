// What the calls of this crate answer.
use zone::rows::Observance;

/// The local time at an instant: seconds since 1970-01-01T00:00:00 on the local clock, how far that clock is ahead of UTC, and its observance.
#[derive(Clone, Copy, PartialEq, Eq, Debug)]
pub struct Local {
    pub time: i64,
    pub offset: i32,
    pub observance: Observance,
}

/// Why a cut is refused. Not zone's `Refusal`: that names an edition with 6, and a cut knows none.
#[derive(Clone, Copy, PartialEq, Eq, Debug)]
pub enum CutRefusal {
    /// 3: the interval does not lie inside.
    OutsideSpan,
    /// 6: the cut has more rows than a window holds.
    TooManyRows,
    /// 13: the rows are no table's.
    NotATable,
}
