// A date with a time of day, a count of seconds, and what is neither.
ghost use Rattle.std.specs.Prelude.{Some, codes};

use std::error::Error;
use std::fmt;

/// A date and a time of day on one clock, UTC or local.
// Its fields may say no date, as those read from a text do, and `is_valid` tells: so that they do is asked by name and no ghost field keeps it.
#[derive(Clone, Copy, PartialEq, Eq, Debug)]
pub struct Stamp {
    pub year: u16,
    pub month: u8,
    pub day: u8,
    pub hour: u8,
    pub minute: u8,
    pub second: u8,
}

/// Prints `2024-03-31T02:00:00`.
// No ghost member says so: that six padded numbers come to that text stayed open in the proof; a test and the programs' output show it.
impl fmt::Display for Stamp {
    fn fmt<W: fmt::Write>(&self, f: &mut fmt::Formatter<W>) -> fmt::Result {
        let Stamp {
            year,
            month,
            day,
            hour,
            minute,
            second,
        } = *self;
        write!(
            f,
            "{year:04}-{month:02}-{day:02}T{hour:02}:{minute:02}:{second:02}"
        )
    }
}

/// The seconds from the start of 1970 on the stamp's own clock, with no leap seconds.
#[derive(Clone, Copy, PartialEq, Eq, Debug)]
pub struct Seconds(pub i64);

/// There is no such date and time of day in the years 1899 to 2100.
#[derive(Clone, Copy, PartialEq, Eq, Debug)]
pub struct InvalidStamp;

impl fmt::Display for InvalidStamp {
    ghost output = { λ _. Some (codes "no such date and time of day") };

    fn fmt<W: fmt::Write>(&self, f: &mut fmt::Formatter<W>) -> fmt::Result {
        f.write_str("no such date and time of day")
    }
}

impl Error for InvalidStamp {}

/// The seconds lie in a year before 1899 or after 2100.
#[derive(Clone, Copy, PartialEq, Eq, Debug)]
pub struct AnotherYear;

impl fmt::Display for AnotherYear {
    ghost output = { λ _. Some (codes "another year") };

    fn fmt<W: fmt::Write>(&self, f: &mut fmt::Formatter<W>) -> fmt::Result {
        f.write_str("another year")
    }
}

impl Error for AnotherYear {}
