// The commands of a script, one a line: words, numbers, names and intervals.
#![tactic(auto)]

pub mod commands;
pub mod lines;
pub mod numbers;
pub mod splits;
pub mod words;
