// Commands read from lines.
ghost use Rattle.std.specs.Prelude.{◌≡◌};
ghost use Rattle.command.specs.Commands.{call as call_of, command as command_of, day as day_of, interval as interval_of, is_lone as is_lone_of, lone_name as lone_name_of, question as question_of, row as row_of, setting as setting_of, stay as stay_of, storage as storage_of};

use super::lines::{Command, Stay, Storage};
use super::numbers::parse;
use super::words::Words;
use client::listing::Call;
use names::name::Name;
use zone::rows::{Instant, Interval, Observance, Row};

// The observance: 0 for standard time, 1 for daylight saving time.
fn day(word: &[u8]) -> Option<Observance>
    ensures { result ≡ day_of word.now }
{
    match word {
        [digit @ b'0'..=b'9'] => Observance::try_from(*digit - b'0').ok(),
        _ => None,
    }
}

// The row of four words.
fn row(mut words: Words<'_>) -> Option<Row>
    ensures { result ≡ row_of words.entry }
{
    let onset = parse(words.next()?)?;
    let from = parse(words.next()?)?;
    let to = parse(words.next()?)?;
    let observance = day(words.next()?)?;
    words.is_empty().then_some(Row {
        onset,
        from,
        to,
        observance,
    })
}

// Two functions follow, and no generic one for two words: each is three lines, and a pair would have to be taken apart again.
// The storage of two words.
fn storage(mut words: Words<'_>) -> Option<Storage>
    ensures { result ≡ storage_of words.entry }
{
    let entries = parse(words.next()?)?;
    let rows = parse(words.next()?)?;
    words.is_empty().then_some(Storage { entries, rows })
}

// The interval of two words.
fn interval(mut words: Words<'_>) -> Option<Interval>
    ensures { result ≡ interval_of words.entry }
{
    let start = parse(words.next()?)?;
    let end = parse(words.next()?)?;
    words.is_empty().then_some(Interval { start, end })
}

// The name of one word.
fn lone_name(mut words: Words<'_>) -> Option<Name>
    ensures { result ≡ lone_name_of words.entry }
{
    let name = Name::from_text(words.next()?);
    words.is_empty().then_some(name)
}

// Whether there is one word.
fn is_lone(mut words: Words<'_>) -> bool
    ensures { result ≡ is_lone_of words.entry }
{
    words.next().is_some() && words.is_empty()
}

// The name and the interval of three words.
fn stay(mut words: Words<'_>) -> Option<Stay>
    ensures { result ≡ stay_of words.entry }
{
    let name = Name::from_text(words.next()?);
    let interval = interval(words)?;
    Some(Stay { name, interval })
}

// The query of a name and an instant.
fn question(mut words: Words<'_>) -> Option<Call>
    ensures { result ≡ question_of words.entry }
{
    let name = Name::from_text(words.next()?);
    let at = Instant(parse(words.next()?)?);
    words.is_empty().then_some(Call::Query { name, at })
}

// The call on the client of a word and the words after it.
// Here and below words are compared by `==`, since of a match on byte strings a proof learns the lengths only.
fn call(verb: &[u8], words: Words<'_>) -> Option<Call>
    ensures { result ≡ call_of verb.now words.entry }
{
    if verb == "begin".as_bytes() {
        let Stay { name, interval } = stay(words)?;
        Some(Call::Begin { name, interval })
    } else if verb == "collect".as_bytes() {
        let name = lone_name(words)?;
        Some(Call::Collect { name })
    } else if verb == "abandon".as_bytes() {
        let name = lone_name(words)?;
        Some(Call::Abandon { name })
    } else if verb == "forget".as_bytes() {
        let name = lone_name(words)?;
        Some(Call::Forget { name })
    } else if verb == "query".as_bytes() {
        question(words)
    } else {
        None
    }
}

// The setting of a word and the words after it, or else the call on the client.
fn setting(verb: &[u8], words: Words<'_>) -> Option<Command>
    ensures { result ≡ setting_of verb.now words.entry }
{
    if verb == "root".as_bytes() {
        Some(Command::Store(storage(words)?))
    } else if verb == "span".as_bytes() {
        Some(Command::Truncate(interval(words)?))
    } else if verb == "uplink".as_bytes() {
        is_lone(words).then_some(Command::Uplink)
    } else if verb == "downlink".as_bytes() {
        is_lone(words).then_some(Command::Downlink)
    } else {
        Some(Command::Make(call(verb, words)?))
    }
}

/// The command of a line, if it is one.
pub fn command(line: &[u8]) -> Option<Command>
    ensures { result ≡ command_of line.now }
{
    let mut words = Words::new(line);
    let verb = words.next()?;
    if verb == "row".as_bytes() {
        Some(Command::Gather(row(words)?))
    } else if verb == "publish".as_bytes() {
        Some(Command::Publish(stay(words)?))
    } else {
        setting(verb, words)
    }
}
