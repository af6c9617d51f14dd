// The client's sixteen slots: what is held of a zone, what is pending, and what a reply does to them.
#![tactic(auto)]

mod accepting;
pub mod answers;
mod holding;
pub mod slot;
pub mod table;
