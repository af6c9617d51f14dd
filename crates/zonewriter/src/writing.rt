// The text of a zone over a window, written into a buffer.
ghost use Rattle.std.specs.Prelude.{◌≡◌, ◌+◌, ◌^◌, ◌<◌, All, length, sum_by};
ghost use Rattle.std.specs.List.{flat_map};
ghost use Rattle.calendar.specs.Calendar.{InRange};
ghost use Rattle.zone.specs.Refusals.{outcome};
ghost use Rattle.zonetext.specs.Reading.{zone_in};
ghost use Rattle.zonetext.specs.Writing.{Writable, head_text, row_text, until_text as text_of_end};
ghost use Rattle.zonewriter.specs.Puts.{HasRoom, Puts};
ghost use Rattle.zonewriter.specs.Written.{ReadsBack, writing as what_comes, written};

use super::printing::stamp_text;
use super::putting::Writer;
use super::rowtexts::row_len;
use calendar::dates::Seconds;
use names::name::Name;
use zone::refusals::Refusal;
use zone::rows::{Interval, Row};
use zone::windows::Window;
use zonetext::words::*;

/// The bytes of a text besides its name and its rows.
const FRAME_BYTES: usize = 65;

// The length of the text with this name and these rows.
fn text_len(name: &[u8], rows: &[Row]) -> usize
    requires fits { 65 + length name.now + sum_by (λ r. length (row_text r)) rows.now < 2 ^ 64 }
    requires writable { All Writable rows.now }
    ensures { result ≡ 65 + length name.now + sum_by (λ r. length (row_text r)) rows.now }
{
    FRAME_BYTES + name.len() + rows.iter().map(|row| row_len(*row)).sum::<usize>()
}

// The window's end in UTC, as text.
fn until_text(interval: Interval) -> [u8; 16]
    requires { InRange interval.end }
    ensures { result ≡ text_of_end interval.end }
{
    let mut until = [b'Z'; 16];
    until[0..15].copy_from_slice(&stamp_text(Seconds(interval.end)));
    until
}

impl Writer<'_> {
    // Puts the lines before the rows.
    #[tactic(auto, using(crate::proofs::Framing::head_lengths))]
    fn head(&mut self, name: &[u8], interval: Interval)
        requires in_range { InRange interval.end }
        requires room { HasRoom self.old (head_text name.now interval.end) }
        ensures same_buffer { self.new.buffer.ghost_name ≡ self.old.buffer.ghost_name }
        ensures puts { Puts self.old (head_text name.now interval.end) self.new }
    {
        self.line(BEGIN, VTIMEZONE);
        self.line(TZID, name);
        self.line(TZUNTIL, &until_text(interval));
    }

    // Puts the texts of the rows.
    fn rows(&mut self, rows: &[Row])
        requires writable { All Writable rows.now }
        requires room { HasRoom self.old (flat_map row_text rows.now) }
        ensures same_buffer { self.new.buffer.ghost_name ≡ self.old.buffer.ghost_name }
        ensures puts { Puts self.old (flat_map row_text rows.now) self.new }
    {
        for row in rows {
            self.row(*row);
        }
    }
}

/// Writes the text of the name and the window at the front of the buffer, and answers its length; the bytes past it stay as they were. Refuses a name that is none, and a buffer that is too short, and leaves the buffer as it was.
pub fn write(name: Name, window: &Window, buffer: &mut [u8]) -> Result<usize, Refusal>
    ensures is { outcome result ≡ what_comes (zone_in name window.now) (length buffer.old) }
    ensures after { buffer.new ≡ written (zone_in name window.now) buffer.old }
    ensures back { ReadsBack result (zone_in name window.now) buffer.new }
{
    if !name.is_valid() {
        return Err(Refusal::BadName);
    }
    let text = name.text();
    let rows = window.rows.as_slice();
    if text_len(text, rows) > buffer.len() {
        return Err(Refusal::BufferTooShort);
    }
    let mut out = Writer::new(buffer);
    out.head(text, window.interval);
    out.rows(rows);
    out.line(END, VTIMEZONE);
    Ok(out.len)
}
