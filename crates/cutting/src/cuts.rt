// Cuts of tables and windows into a window that is lent.
ghost use Rattle.std.specs.Prelude.{◌≡◌, ◌≤◌, true, length};
ghost use Rattle.zone.specs.Intervals.{era, within};
ghost use Rattle.zone.specs.Rows.{Covers};
ghost use Rattle.cutting.specs.Cutting.{cut};
ghost use Rattle.cutting.specs.Outcomes.{cut_number, cut_outcome, cut_result, CutTold, Leaves};

use super::filling::{is_cut_small, put_cut};
use super::locals::CutRefusal;
use zone::deciding::is_table;
use zone::rows::{Interval, Row};
use zone::windows::{Table, Window};

// The cut of rows that cover `of`, an interval of the era.
fn cut_covering(
    of: Interval,
    rows: &[Row],
    to: Interval,
    place: &mut Window,
) -> Result<(), CutRefusal>
    requires era { within of era ≡ true }
    requires covers { Covers of rows.now }
    ensures told { cut_result result place.new ≡ cut_outcome of rows.now to }
    ensures leaves { Leaves result to place.old place.new }
{
    if !to.is_within(of) {
        return Err(CutRefusal::OutsideSpan);
    }
    if !is_cut_small(rows, to) {
        return Err(CutRefusal::TooManyRows);
    }
    put_cut(rows, to, &mut place.rows);
    place.interval = to;
    Ok(())
}

/// Puts the cut of rows over `of` to `to` into the lent window. Refused with 13 where they are no table's, with 3 where `to` is not inside `of`, and with 6 above the rows of a window; the window is then as it was.
pub fn cut_rows(
    of: Interval,
    rows: &[Row],
    to: Interval,
    place: &mut Window,
) -> Result<(), CutRefusal>
    ensures { CutTold of rows.now to result place.old place.new }
{
    if !is_table(of, rows) {
        return Err(CutRefusal::NotATable);
    }
    cut_covering(of, rows, to, place)
}

/// The same of a table.
pub fn cut_table(table: &Table, to: Interval, place: &mut Window) -> Result<(), CutRefusal>
    ensures { CutTold table.now.interval table.now.rows.items to result place.old place.new }
{
    cut_rows(table.interval, table.rows.as_slice(), to, place)
}

/// Puts the cut of a window into the lent one. Refused with 3 where `to` is not inside; the lent window is then as it was.
pub fn cut_window(window: &Window, to: Interval, place: &mut Window) -> Result<(), CutRefusal>
    ensures told { cut_result result place.new ≡ cut_outcome window.now.interval window.now.rows.items to }
    ensures leaves { Leaves result to place.old place.new }
{
    cut_covering(window.interval, window.rows.as_slice(), to, place)
}

// The number of the refusal in the table of refusals.
impl From<CutRefusal> for u8 {
    ghost from_gives = { λ refusal n. n ≡ cut_number refusal };

    fn from(refusal: CutRefusal) -> u8 {
        match refusal {
            CutRefusal::OutsideSpan => 3,
            CutRefusal::TooManyRows => 6,
            CutRefusal::NotATable => 13,
        }
    }
}
