// Windows made once and filled again in place.
ghost use Rattle.std.specs.Prelude.{◌≡◌, ◌↔◌, [], ◌∷◌, IfOk, IsOk, OnOk, OnErr};
ghost use Rattle.zone.specs.Intervals.{era};
ghost use Rattle.zone.specs.Rows.{Sound, utc, window_rows};

use super::deciding::{WINDOW_ROWS, is_window};
use super::intervals::ERA;
use super::rows::{Interval, Observance, Row};
use super::windows::Window;
use std::alloc::{AllocError, Global};

/// The rows are no window's over the interval.
#[derive(Clone, Copy, PartialEq, Eq, Debug)]
pub struct NotAWindow;

impl Window {
    /// A window with memory for all rows that it may ever have: UTC over the whole era.
    pub fn new(heap: Global) -> Result<Window, AllocError>
        ensures { IfOk result (λ w. (w.interval ≡ era) × (w.rows.items ≡ utc ∷ [])) }
    {
        let mut rows = Vec::with_capacity(heap, WINDOW_ROWS)?;
        rows.push_reserved(Row {
            onset: ERA.start,
            from: 0,
            to: 0,
            observance: Observance::Standard,
        });
        Ok(Window {
            interval: ERA,
            rows,
        })
    }

    /// Takes these rows over the interval in the place of its own; or leaves all as it was, where they are no window's.
    pub fn fill(&mut self, interval: Interval, rows: &[Row]) -> Result<(), NotAWindow>
        ensures told { IsOk result ↔ Sound window_rows interval rows.now }
        ensures filled { OnOk result ((self.new.interval ≡ interval) × (self.new.rows.items ≡ rows.now)) }
        ensures refused { OnErr result ((self.new.interval ≡ self.old.interval) × (self.new.rows ≡ self.old.rows)) }
    {
        if !is_window(interval, rows) {
            return Err(NotAWindow);
        }
        self.rows.clear();
        self.rows.extend_from_slice(rows).unwrap();
        self.interval = interval;
        Ok(())
    }
}
