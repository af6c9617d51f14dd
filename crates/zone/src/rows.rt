// Rows of a time-zone table.
ghost use Rattle.std.specs.Prelude.{◌≡◌};
ghost use Rattle.zone.specs.Observances.{StandsFor, observance_number};

/// The kind of a row, as RFC 5545 calls it: standard time or daylight saving time.
#[derive(Clone, Copy, PartialEq, Eq, Debug, Default)]
pub enum Observance {
    #[default]
    Standard,
    Daylight,
}

/// A number that stands for no observance.
#[derive(Clone, Copy, PartialEq, Eq, Debug)]
pub struct UnknownObservance(pub u8);

// 0 for standard time, 1 for daylight saving time.
impl From<Observance> for u8 {
    ghost from_gives = { λ observance n. n ≡ observance_number observance };

    fn from(observance: Observance) -> u8 {
        match observance {
            Observance::Standard => 0,
            Observance::Daylight => 1,
        }
    }
}

impl TryFrom<u8> for Observance {
    type Error = UnknownObservance;

    ghost try_from_gives = { StandsFor };

    fn try_from(number: u8) -> Result<Observance, UnknownObservance> {
        match number {
            0 => Ok(Observance::Standard),
            1 => Ok(Observance::Daylight),
            _ => Err(UnknownObservance(number)),
        }
    }
}

/// From its onset on, local time is `to` seconds ahead of UTC; just before the onset it was `from` seconds ahead.
#[derive(Clone, Copy, PartialEq, Eq, Debug, Default)]
pub struct Row {
    pub onset: i64,
    pub from: i32,
    pub to: i32,
    pub observance: Observance,
}

/// An instant: seconds since 1970-01-01T00:00:00Z, without leap seconds.
#[derive(Clone, Copy, PartialEq, Eq, Debug)]
pub struct Instant(pub i64);

/// The instants from `start` on and before `end`.
#[derive(Clone, Copy, PartialEq, Eq, Debug)]
pub struct Interval {
    pub start: i64,
    pub end: i64,
}
