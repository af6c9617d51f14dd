// Intervals of instants: the era, and what lies inside what.
ghost use Rattle.std.specs.Prelude.{◌≡◌};
ghost use Rattle.zone.specs.Intervals.{has_instant, within};

use super::rows::{Instant, Interval};

/// From 1900-01-01T00:00:00Z on, and before 2100-01-01T00:00:00Z.
pub const ERA: Interval = Interval {
    start: -2_208_988_800,
    end: 4_102_444_800,
};

impl Interval {
    /// Whether the interval rises, and lies in the outer one.
    pub fn is_within(&self, outer: Interval) -> bool
        ensures { result ≡ within self.now outer }
    {
        outer.start <= self.start && self.start < self.end && self.end <= outer.end
    }

    /// Whether the instant lies in the interval.
    pub fn contains(&self, at: Instant) -> bool
        ensures { result ≡ has_instant self.now at.0 }
    {
        self.start <= at.0 && at.0 < self.end
    }
}
