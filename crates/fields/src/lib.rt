// The texts of offsets from UTC and of dates with times: each value has one text, and a text is read as one value or none.
#![tactic(auto)]

mod digits;
pub mod laws;
pub mod offsets;
pub mod stamps;
pub mod types;
