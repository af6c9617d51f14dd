// The rows of a cut, put into memory that is there.
ghost use Rattle.std.specs.Prelude.{◌≡◌, ◌+◌, ◌<◌, ◌≤◌, length, vec_len, vec_capacity, nat_le};
ghost use Rattle.zone.specs.Rows.{window_rows};
ghost use Rattle.cutting.specs.Cutting.{begins_inside, cut, opening};

use super::look::place_in_force;
use zone::deciding::WINDOW_ROWS;
use zone::rows::{Instant, Interval, Row};

// Whether the row begins after the interval does, and before it ends.
fn does_begin_inside(row: Row, to: Interval) -> bool
    ensures { result ≡ begins_inside to row }
{
    to.start < row.onset && row.onset < to.end
}

// The row as the first of a cut to the interval.
fn opened(row: Row, to: Interval) -> Row
    ensures { result ≡ opening to.start row }
{
    let from = if row.onset < to.start {
        row.to
    } else {
        row.from
    };
    Row {
        onset: to.start,
        from,
        ..row
    }
}

/// Whether the cut of the rows to the interval has no more rows than a window holds.
#[tactic(auto, using(crate::proofs::Fits::room_for))]
pub fn is_cut_small(rows: &[Row], to: Interval) -> bool
    ensures { result ≡ nat_le (length (cut rows.now to)) window_rows }
{
    let inside = rows
        .iter()
        .filter(|row| does_begin_inside(**row, to))
        .count();
    inside < WINDOW_ROWS
}

// Puts the cut in the place of what `out` held.
pub(crate) fn put_cut(rows: &[Row], to: Interval, out: &mut Vec<Row>)
    requires some { 0 < length rows.now }
    requires room { length (cut rows.now to) ≤ vec_capacity out.old }
    ensures items { out.new.items ≡ cut rows.now to }
    ensures capacity { vec_capacity out.new ≡ vec_capacity out.old }
{
    out.clear();
    out.push_reserved(opened(rows[place_in_force(rows, Instant(to.start))], to));
    // A `for` with `push_reserved`: `extend` may ask for memory, and no memory may be asked for here.
    for row in rows {
        if does_begin_inside(*row, to) {
            out.push_reserved(*row);
        }
    }
}
