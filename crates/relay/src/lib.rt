// A layer over a provider: a relay that keeps pages.
#![tactic(auto)]

pub mod relays;
