// Worked cases: a year of Central European time as values, and tests of the public calls on it and at the edges of what they take.
#![tactic(auto)]

#[cfg(test)]
mod test_calendar;
#[cfg(test)]
mod test_cuts;
#[cfg(test)]
mod test_fields;
#[cfg(test)]
mod test_heads;
#[cfg(test)]
mod test_names;
#[cfg(test)]
mod test_root;
#[cfg(test)]
mod test_rows;
#[cfg(test)]
mod test_snapshot;
#[cfg(test)]
mod test_texts;
pub mod year;
