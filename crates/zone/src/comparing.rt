// Rows, compared.
ghost use Rattle.std.specs.Prelude.{◌≡◌, Decides};
ghost use Rattle.zone.specs.Comparing.{ComparisonsStand, same_rows as the_same};

use super::rows::Row;

// Whether the two rows are the same: in a function of its own, so that its contract tells what a row's test has to compare.
fn is_same_row(a: Row, b: Row) -> bool
    ensures { Decides result (a ≡ b) }
{
    a == b
}

/// Whether the two lists of rows are the same, row by row.
#[tactic(auto, using(crate::proofs::Compared::same_row_is))]
pub fn same_rows(a: &[Row], b: &[Row]) -> bool
    ensures { result ≡ the_same a.now b.now }
{
    if a.len() != b.len() {
        return false;
    }
    for (x, y) in a.iter().zip(b) {
        if !is_same_row(*x, *y) {
            return false;
        }
    }
    true
}

/// Byte order is strict, and of two lists of bytes that differ one comes before the other; rows are tested the same exactly when they are.
pub fn comparisons_stand()
    ensures { ComparisonsStand }
{}
