// A layer over a provider: the same pages over a shorter span.
#![tactic(auto)]

pub mod truncations;
