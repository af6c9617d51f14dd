// Scripts: the lines that set up a stack of providers and make calls on a client over it.
#![tactic(auto)]

pub mod reading;
pub mod scripts;
