// The text of a zone over a window, written into a buffer that is lent.
#![tactic(auto)]

mod printing;
mod putting;
mod rowtexts;
pub mod writing;
