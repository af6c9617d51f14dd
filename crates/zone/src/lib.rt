// Intervals, rows, tables and windows: what they are and what they must keep; and the refusals.
#![tactic(auto)]

pub mod comparing;
pub mod deciding;
pub mod filling;
pub mod intervals;
pub mod laws;
pub mod numbers;
pub mod refusals;
pub mod rows;
pub mod windows;
