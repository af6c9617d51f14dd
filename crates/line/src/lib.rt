// A layer over a provider: a line that loses requests and replies.
#![tactic(auto)]

pub mod fates;
pub mod laws;
pub mod lines;
pub mod marks;
