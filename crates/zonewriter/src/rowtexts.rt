// The text of a row, and its length.
ghost use Rattle.std.specs.Prelude.{◌≡◌, length};
ghost use Rattle.zonetext.specs.Writing.{Writable, row_text};
ghost use Rattle.zonewriter.specs.Puts.{HasRoom, Puts};

use super::printing::{offset_text, row_texts};
use super::putting::Writer;
use zone::rows::Row;
use zonetext::steps::component_of;
use zonetext::words::*;

/// The bytes of a row's text besides its two offsets.
const ROW_BYTES: usize = 83;

impl Writer<'_> {
    // That a row is writable is asked by name: of a window's rows its ghost fields tell it, and other rows come to no function here.
    /// Puts the text of a row.
    #[tactic(auto, using(crate::proofs::Rowing::row_lengths))]
    pub(crate) fn row(&mut self, row: Row)
        requires writable { Writable row }
        requires room { HasRoom self.old (row_text row) }
        ensures same_buffer { self.new.buffer.ghost_name ≡ self.old.buffer.ghost_name }
        ensures puts { Puts self.old (row_text row) self.new }
    {
        let component = component_of(row.observance);
        let texts = row_texts(row);
        self.line(BEGIN, component);
        self.line(DTSTART, &texts.start);
        self.line(TZOFFSETFROM, texts.from.as_slice());
        self.line(TZOFFSETTO, texts.to.as_slice());
        self.line(END, component);
    }
}

/// The length of a row's text.
pub(crate) fn row_len(row: Row) -> usize
    requires { Writable row }
    ensures { result ≡ length (row_text row) }
{
    ROW_BYTES + offset_text(row.from).len + offset_text(row.to).len
}
