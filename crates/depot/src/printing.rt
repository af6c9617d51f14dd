// What the program prints. The words are this program's, so they are no `Display` of the client's types.
use calendar::dates::{Seconds, Stamp};
use client::listing::{Call, Entry, Outcome};
use script::scripts::Script;
use slots::answers::Answer;
use std::fmt;
use zone::rows::Instant;

// The word of a call.
fn verb(entry: &Entry) -> &'static str {
    match entry {
        Entry::Publish { .. } => "publish",
        Entry::Call { call } => match call {
            Call::Begin { .. } => "begin",
            Call::Collect { .. } => "collect",
            Call::Abandon { .. } => "abandon",
            Call::Forget { .. } => "forget",
            Call::Query { .. } => "query",
        },
    }
}

// The instant that a query asks for, as ` 1711846800`; of another call nothing is shown.
#[derive(Clone, Copy)]
struct Asked {
    at: Option<Instant>,
}

impl Asked {
    fn by(entry: &Entry) -> Asked {
        let at = match entry {
            Entry::Call {
                call: Call::Query { at, .. },
            } => Some(*at),
            _ => None,
        };
        Asked { at }
    }
}

impl fmt::Display for Asked {
    fn fmt<W: fmt::Write>(&self, f: &mut fmt::Formatter<W>) -> fmt::Result {
        match self.at {
            Some(Instant(at)) => write!(f, " {at}"),
            None => Ok(()),
        }
    }
}

// Prints the answer to a query. The rest of a line goes out in one `println!`, here and below, since each print is a write of its own.
fn print_answer(rt: &HostRuntime, asked: Asked, answer: Answer) -> anyhow::Result<()> {
    let edition = answer.edition;
    let time = answer.local.time;
    let offset = answer.local.offset;
    let day = u8::from(answer.local.observance);
    match Stamp::try_from(Seconds(time)) {
        Ok(stamp) => println!(rt;
            "{asked}: edition {edition} local {time} offset {offset} day {day} at {stamp}"
        )?,
        Err(another_year) => println!(rt;
            "{asked}: edition {edition} local {time} offset {offset} day {day} at {another_year}"
        )?,
    }
    Ok(())
}

// Prints what a call came to, after what it asks for.
fn print_outcome(rt: &HostRuntime, asked: Asked, outcome: Outcome) -> anyhow::Result<()> {
    match outcome {
        Outcome::Began { slot, .. } => println!(rt; "{asked}: slot {slot}")?,
        Outcome::Collected { edition } => println!(rt; "{asked}: edition {edition}")?,
        Outcome::Abandoned => println!(rt; "{asked}: done")?,
        Outcome::Forgotten => println!(rt; "{asked}: done")?,
        Outcome::Answered { answer } => print_answer(rt, asked, answer)?,
        Outcome::Published { edition } => println!(rt; "{asked}: edition {edition}")?,
        Outcome::Refused { refusal } => println!(rt; "{asked}: {refusal}")?,
        Outcome::HandedBack { refusal, .. } => println!(rt; "{asked}: {refusal}")?,
        Outcome::NotPending => println!(rt; "{asked}: no pending fetch")?,
    }
    Ok(())
}

// Prints a call with its name, and what it came to.
fn print_one(rt: &HostRuntime, entry: &Entry, name: &[u8], outcome: Outcome) -> anyhow::Result<()> {
    let verb = verb(entry);
    print!(rt; "{verb} ")?;
    rt.write_all(name)?;
    print_outcome(rt, Asked::by(entry), outcome)
}

/// Prints the calls of a script and what they came to, in order.
pub fn print_all(
    rt: &HostRuntime,
    script: &Script<'_>,
    outcomes: &[Outcome],
) -> anyhow::Result<()> {
    let calls = script.entries.iter().zip(script.names.iter());
    for ((entry, name), outcome) in calls.zip(outcomes.iter()) {
        print_one(rt, entry, *name, *outcome)?;
    }
    Ok(())
}
