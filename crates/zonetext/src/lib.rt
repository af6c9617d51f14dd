// The text of a zone over a window, a condensed VTIMEZONE: what it is, and the reader.
#![tactic(auto)]

pub mod laws;
pub mod lines;
mod parting;
pub mod places;
pub mod reading;
pub mod steps;
mod values;
pub mod words;
