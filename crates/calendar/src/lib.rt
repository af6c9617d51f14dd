// Gregorian dates and times of day in the years 1899 to 2100, and the seconds from 1970 to them.
#![tactic(auto)]

pub mod dates;
mod days;
pub mod laws;
mod stamps;
