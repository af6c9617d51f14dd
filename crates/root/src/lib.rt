// The root: a provider that holds its record itself, a log of publications in storage that is reserved when it is made.
#![tactic(auto)]

pub mod adding;
pub mod answering;
pub mod entries;
pub mod laws;
pub mod looking;
pub mod making;
pub mod providing;
pub mod roots;
