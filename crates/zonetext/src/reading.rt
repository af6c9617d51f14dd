// A text is read whole, or refused at a byte.
ghost use Rattle.std.specs.Prelude.{◌≡◌, ◌<◌};
ghost use Rattle.arrayvec.specs.ArrayVec.{array_vec_len};
ghost use Rattle.zone.specs.Rows.{at as row_at};
ghost use Rattle.zone.specs.Refusals.{outcome};
ghost use Rattle.zonetext.specs.Laws.{OneText, Says};
ghost use Rattle.zonetext.specs.Reading.{LeftAlone, between, reading, scanned, start, state_of, told};

use super::parting::{line_end, parts};
use super::places::{Place, Reader};
use super::words::CR_LF;
use arrayvec::ArrayVec;
use names::name::Name;
use zone::refusals::Refusal;
use zone::rows::{Instant, Interval};
use zone::windows::Window;

impl<'a> Reader<'a> {
    // A reader before the text.
    fn new() -> Reader<'a>
        ensures { state_of result ≡ start }
    {
        Reader {
            place: Place::Before,
            name: b"",
            until: Instant(0),
            rows: ArrayVec::new(),
        }
    }

    // From the first onset on, and before the window's end.
    fn interval(&self) -> Interval
        requires { 0 < array_vec_len self.now.rows }
        ensures { result ≡ between (row_at self.now.rows.items 0).onset self.now.until.0 }
    {
        Interval {
            start: self.rows[0].onset,
            end: self.until.0,
        }
    }
}

// Reads the whole text, or answers the byte at which it fails.
fn scan<'a>(text: &'a [u8]) -> Result<Reader<'a>, usize>
    ensures { scanned result ≡ reading text.now }
{
    let mut reader = Reader::new();
    let mut at = 0;
    // By offset, and no iterator over lines: a refusal tells the byte at which its line begins.
    while let Some(n) = line_end(&text[at..]) {
        let line = parts(&text[at..at + n]).ok_or(at)?;
        reader.step(line).ok_or(at)?;
        at += n + CR_LF.len();
    }
    match reader.place {
        Place::After if at == text.len() => Ok(reader),
        Place::After => Err(at),
        _ => Err(text.len()),
    }
}

/// Reads the text: the window then holds the rows and the interval read, and the answer is the name; or refuses the text with the byte at which it fails, and leaves the window as it was.
pub fn read(text: &[u8], window: &mut Window) -> Result<Name, Refusal>
    ensures is { told (outcome result) window.new ≡ reading text.now }
    ensures refused { LeftAlone result window.old window.new }
    ensures says { Says result text.now window.new }
    ensures one_text { OneText }
{
    let reader = scan(text).map_err(|offset| Refusal::BadText { offset })?;
    window.fill(reader.interval(), &reader.rows).unwrap();
    Ok(Name::from_text(reader.name))
}
