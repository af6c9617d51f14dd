// The year 2024 of Central European time, which the worked examples speak of.
ghost use Rattle.std.specs.Prelude.{◌≡◌};
ghost use Rattle.cutting.specs.Examples.{rows as worked_rows, year as worked_year};

use zone::rows::{Interval, Observance, Row};

/// The interval of the year.
pub fn year() -> Interval
    ensures { result ≡ worked_year }
{
    Interval {
        start: 1704067200,
        end: 1735689600,
    }
}

/// Its rows: standard time, daylight saving time from the end of March on, and standard time from the end of October on.
pub fn rows() -> [Row; 3]
    ensures { result ≡ worked_rows }
{
    [
        Row {
            onset: 1704067200,
            from: 3600,
            to: 3600,
            observance: Observance::Standard,
        },
        Row {
            onset: 1711846800,
            from: 3600,
            to: 7200,
            observance: Observance::Daylight,
        },
        Row {
            onset: 1729990800,
            from: 7200,
            to: 3600,
            observance: Observance::Standard,
        },
    ]
}
