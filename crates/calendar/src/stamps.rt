// Stamps that are valid, their seconds, and the stamp at given seconds.
ghost use Rattle.std.specs.Prelude.{◌↔◌, IsTrue};
ghost use Rattle.calendar.specs.Calendar.{Valid, SecondsFound, StampFound};

use super::dates::{AnotherYear, InvalidStamp, Seconds, Stamp};
use super::days::{days_before_month, days_before_year, days_in_month, month_of, year_of};

/// 1899-01-01T00:00:00, in seconds from the start of 1970.
const FIRST: i64 = -2240524800;

/// 2101-01-01T00:00:00, in seconds from the start of 1970.
const END: i64 = 4133980800;

impl Stamp {
    /// Whether there is such a date and time of day, in the years 1899 to 2100.
    pub fn is_valid(self) -> bool
        ensures { IsTrue result ↔ Valid self }
    {
        // Compared one by one, since `contains` of three ranges takes longer.
        1899 <= self.year
            && self.year <= 2100
            && 1 <= self.month
            && self.month <= 12
            && 1 <= self.day
            && self.day <= days_in_month(self.year, self.month)
            && self.hour < 24
            && self.minute < 60
            && self.second < 60
    }
}

/// The seconds of a stamp, if it is valid.
impl TryFrom<Stamp> for Seconds {
    type Error = InvalidStamp;

    ghost try_from_gives = { SecondsFound };

    #[tactic(auto, using(crate::proofs::Unique::day_number_small))]
    fn try_from(stamp: Stamp) -> Result<Seconds, InvalidStamp> {
        if !stamp.is_valid() {
            return Err(InvalidStamp);
        }
        let days = days_before_year(stamp.year)
            + days_before_month(stamp.year, stamp.month)
            + (stamp.day as u32 - 1);
        let time = stamp.hour as u32 * 3600 + stamp.minute as u32 * 60 + stamp.second as u32;
        Ok(Seconds(days as i64 * 86400 + time as i64 + FIRST))
    }
}

/// The stamp at some seconds, if they are in range.
impl TryFrom<Seconds> for Stamp {
    type Error = AnotherYear;

    ghost try_from_gives = { StampFound };

    fn try_from(at: Seconds) -> Result<Stamp, AnotherYear> {
        if !(FIRST..END).contains(&at.0) {
            return Err(AnotherYear);
        }
        let since_1899 = (at.0 - FIRST) as u64;
        let (year, rest) = year_of((since_1899 / 86400) as u32);
        let (month, days) = month_of(year, rest);
        let time = since_1899 % 86400;
        Ok(Stamp {
            year,
            month,
            day: (days + 1) as u8,
            hour: (time / 3600) as u8,
            minute: (time / 60 % 60) as u8,
            second: (time % 60) as u8,
        })
    }
}
