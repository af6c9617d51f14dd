// The snapshot: a provider of one edition that never changes.
#![tactic(auto)]

pub mod answering;
pub mod deciding;
pub mod laws;
pub mod looking;
pub mod making;
pub mod providing;
pub mod snapshots;
pub mod zones;
