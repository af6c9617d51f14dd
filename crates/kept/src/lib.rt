// A table of eight places for pages that are kept, one page a name, and what is done with it when the provider below has answered.
#![tactic(auto)]

pub mod answering;
pub mod changing;
pub mod laws;
pub mod places;
pub mod stepping;
pub mod steps;
pub mod table;
