// Counts of days in months and years, and the year and month of a day.
ghost use Rattle.std.specs.Prelude.{◌≡◌, ◌+◌, ◌<◌, ◌≤◌};
ghost use Rattle.calendar.specs.Calendar.{leap, year_days, month_days, days_before_year, days_before_month};

/// The days from 1 January of the year 1 to 1 January 1899.
const DAYS_BEFORE_1899: u32 = 693230;

/// The days of a common year before each month, and before the next January.
static DAYS_BEFORE_MONTH: [u32; 13] = [0, 31, 59, 90, 120, 151, 181, 212, 243, 273, 304, 334, 365];

/// Whether the year has a 29 February.
pub(crate) fn is_leap(year: u16) -> bool
    ensures { result ≡ leap year }
{
    year % 4 == 0 && (year % 100 != 0 || year % 400 == 0)
}

/// The days of the month: January is 1.
pub(crate) fn days_in_month(year: u16, month: u8) -> u8
    requires { (1 ≤ month) × (month ≤ 12) }
    ensures { result ≡ month_days year month }
{
    match month {
        2 => if is_leap(year) { 29 } else { 28 },
        4 | 6 | 9 | 11 => 30,
        _ => 31,
    }
}

/// The days from 1 January 1899 to 1 January of the year.
pub(crate) fn days_before_year(year: u16) -> u32
    requires { 1899 ≤ year }
    ensures { result ≡ days_before_year year }
{
    let last = year as u32 - 1;
    365 * last + last / 4 - last / 100 + last / 400 - DAYS_BEFORE_1899
}

/// The days from 1 January to the first of the month; the month 13 is the next January.
pub(crate) fn days_before_month(year: u16, month: u8) -> u32
    requires { (1 ≤ month) × (month ≤ 13) }
    ensures { result ≡ days_before_month year month }
{
    let days = DAYS_BEFORE_MONTH[month as usize - 1];
    if month > 2 && is_leap(year) {
        days + 1
    } else {
        days
    }
}

/// The year in which the day lies that is `days` after 1 January 1899, and how many days it is after 1 January.
#[tactic(auto, using(crate::proofs::Closed::year_guess))]
pub(crate) fn year_of(days: u32) -> (u16, u32)
    requires { days < days_before_year 2101 }
    ensures sum { days_before_year result.0 + result.1 ≡ days }
    ensures rest { result.1 < year_days result.0 }
    ensures range { (1899 ≤ result.0) × (result.0 ≤ 2100) }
{
    let year = 1899 + (days / 366) as u16;
    let next = days_before_year(year + 1);
    if days < next {
        (year, days - days_before_year(year))
    } else {
        (year + 1, days - next)
    }
}

/// The month of the year in which the day lies that is `days` after 1 January, and how many days it is after the first.
pub(crate) fn month_of(year: u16, days: u32) -> (u8, u32)
    requires { days < year_days year }
    ensures sum { days_before_month year result.0 + result.1 ≡ days }
    ensures rest { result.1 < month_days year result.0 }
    ensures range { (1 ≤ result.0) × (result.0 ≤ 12) }
{
    let month = 1 + (days / 31) as u8;
    let next = days_before_month(year, month + 1);
    if days < next {
        (month, days - days_before_month(year, month))
    } else {
        (month + 1, days - next)
    }
}
