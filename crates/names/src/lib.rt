// Zone names: made from text, checked, compared and spelled.
#![tactic(auto)]

pub mod laws;
pub mod name;
pub mod naming;
pub mod ordering;
