// The client: it holds part of each zone's table and answers local times while the line is down.
#![tactic(auto)]

pub mod calls;
pub mod clients;
mod items;
pub mod listing;
pub mod pending;
mod performing;
pub mod posting;
pub mod replays;
mod sessions;
mod tokens;
