// Scripts read line by line.
ghost use Rattle.std.specs.Prelude.{◌≡◌, if◌then◌else◌, is_some, IsOk, None, OnOk, Some, ◌↔◌, IsTrue};
ghost use Rattle.script.specs.declared.scripts.Fault.TheVariants.{NoMemory as FaultNoMemory};
ghost use Rattle.script.specs.declared.scripts.Trouble.TheVariants.{NotUnderstood, NoMemory};
ghost use Rattle.command.specs.Words.{rest as rest_of, word as word_of};
ghost use Rattle.script.specs.Drafts.{gathered, line_read, listed, moved, posted, setting_up, skipped, unread};
ghost use Rattle.script.specs.Scripts.{finished, script as script_of};
ghost use Rattle.script.specs.Seeing.{finish_of, listed_of, met, read_of, Reads, told, Took};

use super::scripts::{Draft, Fault, Misplaced, Script, Setup, Trouble};
use client::listing::Entry;
use command::commands::command;
use command::lines::{Command, Stay};
use command::words::Words;
use std::alloc::{AllocError, Global};
use zone::intervals::ERA;
use zone::rows::Row;
use zone::windows::Table;

impl From<AllocError> for Fault {
    ghost from_gives = { λ _ fault. fault ≡ FaultNoMemory };

    fn from(_: AllocError) -> Fault {
        Fault::NoMemory
    }
}

impl From<AllocError> for Trouble {
    ghost from_gives = { λ _ trouble. trouble ≡ NoMemory };

    fn from(_: AllocError) -> Trouble {
        Trouble::NoMemory
    }
}

impl From<Misplaced> for Trouble {
    ghost from_gives = { λ _ trouble. trouble ≡ NotUnderstood };

    fn from(_: Misplaced) -> Trouble {
        Trouble::NotUnderstood
    }
}

impl Trouble {
    // The fault of a script at the line with this number.
    fn at(self, line: usize) -> Fault
        ensures { result ≡ met self line }
    {
        match self {
            Trouble::NotUnderstood => Fault::NotUnderstood { line },
            Trouble::NoMemory => Fault::NoMemory,
        }
    }
}

// Whether the line says nothing: it is blank, or begins with '#'.
fn is_skipped(line: &[u8]) -> bool
    ensures { result ≡ skipped line.now }
{
    Words::new(line).is_empty() || line.starts_with(b"#")
}

// The second word of a line.
fn second_word(line: &[u8]) -> &[u8]
    ensures { result.now ≡ word_of (rest_of line.now) }
{
    let mut words = Words::new(line);
    let _ = words.next();
    words.next().unwrap_or(b"")
}

// Sets what is not set yet.
fn set_once<T: Drop>(place: &mut Option<T>, value: T) -> Result<(), Misplaced>
    ensures { told result place.new ≡ (if is_some place.old then None else Some (Some value)) }
{
    if place.is_some() {
        return Err(Misplaced);
    }
    *place = Some(value);
    Ok(())
}

impl<'a> Draft<'a> {
    // Nothing was read yet.
    fn new(heap: Global) -> Draft<'a>
        ensures { read_of result ≡ unread }
    {
        Draft {
            storage: None,
            span: None,
            uplink: None,
            downlink: None,
            rows: Vec::new(heap),
            entries: Vec::new(heap),
            names: Vec::new(heap),
        }
    }

    // The storage is known.
    fn check_begun(&self) -> Result<(), Misplaced>
        ensures { IsOk result ↔ IsTrue (is_some (read_of self.now).storage) }
    {
        if self.storage.is_none() {
            return Err(Misplaced);
        }
        Ok(())
    }

    // The storage is known, and no call or row came yet.
    fn check_setting_up(&self) -> Result<(), Misplaced>
        ensures { IsOk result ↔ IsTrue (setting_up (read_of self.now)) }
    {
        self.check_begun()?;
        if self.rows.is_empty() && self.entries.is_empty() {
            Ok(())
        } else {
            Err(Misplaced)
        }
    }

    // Takes one more row.
    fn gather(&mut self, row: Row) -> Result<(), AllocError>
        ensures { OnOk result (read_of self.new ≡ gathered (read_of self.old) row) }
    {
        self.rows.push(row)?;
        Ok(())
    }

    // Takes a call with its name.
    fn add(&mut self, entry: Entry, name: &'a [u8]) -> Result<(), AllocError>
        ensures { OnOk result (read_of self.new ≡ listed (read_of self.old) (listed_of entry) name.now) }
    {
        self.entries.push(entry)?;
        self.names.push(name)?;
        Ok(())
    }

    // Takes the publication of the gathered rows, and gathers anew.
    fn publish(&mut self, stay: Stay, name: &'a [u8]) -> Result<(), AllocError>
        ensures { OnOk result (read_of self.new ≡ posted (read_of self.old) stay name.now) }
    {
        let table = Table {
            interval: stay.interval,
            rows: std::mem::try_take(&mut self.rows)?,
        };
        let entry = Entry::Publish {
            name: stay.name,
            table,
        };
        self.add(entry, name)
    }

    // Takes a command, where it may stand.
    fn take(&mut self, command: Command, word: &'a [u8]) -> Result<(), Trouble>
        ensures { Took (moved (read_of self.old) word.now command) result (read_of self.new) }
    {
        match command {
            Command::Store(storage) => set_once(&mut self.storage, storage)?,
            Command::Truncate(span) => {
                self.check_setting_up()?;
                set_once(&mut self.span, span)?;
            }
            Command::Uplink => {
                self.check_setting_up()?;
                set_once(&mut self.uplink, word)?;
            }
            Command::Downlink => {
                self.check_setting_up()?;
                set_once(&mut self.downlink, word)?;
            }
            Command::Gather(row) => {
                self.check_begun()?;
                self.gather(row)?;
            }
            Command::Publish(stay) => {
                self.check_begun()?;
                self.publish(stay, word)?;
            }
            Command::Make(call) => {
                self.check_begun()?;
                self.add(Entry::Call { call }, word)?;
            }
        }
        Ok(())
    }

    // Takes what a line says.
    fn read_line(&mut self, line: &'a [u8]) -> Result<(), Trouble>
        ensures { Took (line_read (read_of self.old) line.now) result (read_of self.new) }
    {
        if is_skipped(line) {
            return Ok(());
        }
        let command = command(line).ok_or(Trouble::NotUnderstood)?;
        self.take(command, second_word(line))
    }

    // The script, where there is a storage.
    fn finish(self) -> Option<Script<'a>>
        ensures { finish_of result ≡ finished (read_of self.entry) self.entry.storage }
    {
        let storage = self.storage?;
        let setup = Setup {
            storage,
            span: self.span.unwrap_or(ERA),
            uplink: self.uplink.unwrap_or(b""),
            downlink: self.downlink.unwrap_or(b""),
        };
        Some(Script {
            setup,
            entries: self.entries,
            names: self.names,
        })
    }
}

/// Reads a script to its end.
pub fn read_script<'a>(heap: Global, text: &'a [u8]) -> Result<Script<'a>, Fault>
    ensures { Reads (script_of text.now) result }
{
    let mut draft = Draft::new(heap);
    for (index, line) in text.split(|byte| *byte == b'\n').enumerate() {
        let number = index + 1;
        draft.read_line(line).map_err(|trouble| trouble.at(number))?;
    }
    draft.finish().ok_or(Fault::NotUnderstood { line: 1 })
}
