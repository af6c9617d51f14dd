// Providers of time-zone tables: what they mean, and what every one of them owes.
#![tactic(auto)]

pub mod answers;
pub mod laws;
pub mod providers;
pub mod publishing;
pub mod requests;
