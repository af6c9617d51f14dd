// Tables and windows.
ghost use Rattle.std.specs.Prelude.{◌≡◌, ◌≤◌, true, length, vec_capacity};
ghost use Rattle.zone.specs.Intervals.{era as the_era, within};
ghost use Rattle.zone.specs.Rows.{Begins, Joined, Ends, Small, window_rows};

use super::rows::{Interval, Row};

// Two types with the same fields, and no type parameter: a table may hold anything until it is tested, and a window keeps its facts from one call to the next.

/// Rows over an interval, as they are handed in to be published. Anything may stand in it; `is_table` tells whether it is a table.
#[derive(Drop)]
pub struct Table {
    pub interval: Interval,
    pub rows: Vec<Row>,
}

/// The rows of a zone over an interval of the era, 1 to 64, in memory that is kept from one filling to the next.
#[derive(Drop)]
pub struct Window {
    pub interval: Interval,
    pub rows: Vec<Row>,
    ghost era: { within interval the_era ≡ true },
    ghost begins: { Begins interval.start rows.items },
    ghost joined: { Joined rows.items },
    ghost ends: { Ends interval.end rows.items },
    ghost small: { Small rows.items },
    ghost few: { length rows.items ≤ window_rows },
    ghost room: { window_rows ≤ vec_capacity rows },
}
