// The row in force, local times, and cuts.
#![tactic(auto)]

pub mod cuts;
pub mod filling;
pub mod laws;
pub mod locals;
pub mod look;
