// The row in force at an instant, and the local time by it.
ghost use Rattle.std.specs.Prelude.{◌≡◌, ◌<◌, true, length};
ghost use Rattle.zone.specs.Intervals.{era, has_instant};
ghost use Rattle.zone.specs.Refusals.{outcome};
ghost use Rattle.zone.specs.Rows.{at as row_at, Offset};
ghost use Rattle.cutting.specs.Cutting.{by_row, in_force};
ghost use Rattle.cutting.specs.Outcomes.{local_outcome};

use super::locals::Local;
use zone::refusals::Refusal;
use zone::rows::{Instant, Row};
use zone::windows::Window;

// The place of the row in force: the last whose onset is not later, or the first.
#[tactic(auto, using(crate::proofs::Seen::seen_none, crate::proofs::Seen::seen_taken, crate::proofs::Seen::seen_left, crate::proofs::Seen::seen_all))]
pub(crate) fn place_in_force(rows: &[Row], at: Instant) -> usize
    requires { 0 < length rows.now }
    ensures within { result < length rows.now }
    ensures row { row_at rows.now result ≡ in_force rows.now at.0 }
{
    // A `for` over the rows, and no search from the end: it is a rule of the project that the rows are walked so.
    let mut place = 0;
    for (i, row) in rows.iter().enumerate() {
        if row.onset <= at.0 {
            place = i;
        }
    }
    place
}

// The local time by the row in force.
fn local_by(row: Row, at: Instant) -> Local
    requires offset { Offset row.to }
    requires era { has_instant era at.0 ≡ true }
    ensures { result ≡ by_row row at.0 }
{
    Local {
        time: at.0 + row.to as i64,
        offset: row.to,
        observance: row.observance,
    }
}

/// The local time at an instant of the window; refused with 12 outside of it.
pub fn local_time(window: &Window, at: Instant) -> Result<Local, Refusal>
    ensures { outcome result ≡ local_outcome window.now.interval window.now.rows.items at.0 }
{
    if !window.interval.contains(at) {
        return Err(Refusal::OutsideWindow);
    }
    let rows = window.rows.as_slice();
    Ok(local_by(rows[place_in_force(rows, at)], at))
}
