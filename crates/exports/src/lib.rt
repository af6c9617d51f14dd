// Functions for programs in other languages, which link the static library of this crate.
#![tactic(auto)]

pub mod counting;
