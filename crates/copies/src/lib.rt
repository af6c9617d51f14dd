// Texts parted by their head lines, read, and written again to see that the same bytes come.
#![tactic(auto)]

pub mod copied;
pub mod copying;
pub mod heads;
pub mod parting;
