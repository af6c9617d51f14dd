// Whether rows are those of a table or of a window.
ghost use Rattle.std.specs.Prelude.{◌≡◌, ◌≤◌, length, ◌<ℤ◌, Decides};
ghost use Rattle.zone.specs.Intervals.{era};
ghost use Rattle.zone.specs.Rows.{Begins, Covers, Ends, Joined, Offset, Small, Sound, table_rows, window_rows};
ghost use Rattle.zone.specs.Tables.{follows as does_follow, is_era_table};

use super::intervals::ERA;
use super::rows::{Interval, Row};
use super::windows::Table;

/// The most rows of a window.
pub const WINDOW_ROWS: usize = 64;

/// The most rows of a table.
pub const TABLE_ROWS: usize = 512;

fn is_small(row: Row) -> bool
    ensures { Decides result (Offset row.from × Offset row.to) }
{
    -86400 < row.from && row.from < 86400 && -86400 < row.to && row.to < 86400
}

fn follows(row: Row, next: Row) -> bool
    ensures { result ≡ does_follow row next }
{
    row.onset < next.onset && next.from == row.to
}

fn are_joined(rows: &[Row]) -> bool
    ensures { Decides result (Joined rows.now) }
{
    rows.is_sorted_by(|row, next| follows(*row, *next))
}

fn are_small(rows: &[Row]) -> bool
    ensures { Decides result (Small rows.now) }
{
    rows.iter().all(|row| is_small(*row))
}

// An interval and rows are two parameters, here, in `cutting` and in `provider`: they lie in a `Vec`, an array or a part of one, and a struct that borrows the rows would put one more name into each clause and make none plainer.

/// Whether the rows cover the interval.
pub fn do_cover(rows: &[Row], interval: Interval) -> bool
    ensures { Decides result (Covers interval rows.now) }
{
    rows.len() > 0
        && rows[0].onset == interval.start
        && rows[rows.len() - 1].onset < interval.end
        && are_joined(rows)
        && are_small(rows)
}

// Whether the rows cover the interval, which lies in the era, and are at most so many.
fn is_sound<const MOST: usize>(interval: Interval, rows: &[Row]) -> bool
    ensures { Decides result (Sound MOST interval rows.now) }
{
    interval.is_within(ERA) && rows.len() <= MOST && do_cover(rows, interval)
}

/// Whether the rows are those of a window over the interval.
pub fn is_window(interval: Interval, rows: &[Row]) -> bool
    ensures { Decides result (Sound window_rows interval rows.now) }
{
    is_sound::<WINDOW_ROWS>(interval, rows)
}

/// Whether the rows are those of a table over the interval.
pub fn is_table(interval: Interval, rows: &[Row]) -> bool
    ensures { Decides result (Sound table_rows interval rows.now) }
{
    is_sound::<TABLE_ROWS>(interval, rows)
}

// Whether the interval is the whole era: in a function of its own, so that its contract alone tells what `==` has to compare.
fn is_era(interval: Interval) -> bool
    ensures { Decides result ((interval.start ≡ era.start) × (interval.end ≡ era.end)) }
{
    interval == ERA
}

impl Table {
    /// Whether what stands in it is a table.
    pub fn is_table(&self) -> bool
        ensures { Decides result (Sound table_rows self.now.interval self.now.rows.items) }
    {
        is_table(self.interval, self.rows.as_slice())
    }

    /// Whether what stands in it is a table over the whole era.
    pub fn is_over_era(&self) -> bool
        ensures { result ≡ is_era_table self.now.interval self.now.rows.items }
    {
        is_era(self.interval) && self.is_table()
    }
}
