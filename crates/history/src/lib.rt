// What every list of calls on a client comes to: the rules, histories of calls, and the promises.
#![tactic(auto)]

pub mod laws;
