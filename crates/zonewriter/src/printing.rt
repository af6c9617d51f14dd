// The texts of the values that a window holds.
ghost use Rattle.std.specs.Prelude.{◌≡◌};
ghost use Rattle.calendar.specs.Calendar.{InRange};
ghost use Rattle.fields.specs.Offsets.{InDay, PrintedAs, offset as offset_of};
ghost use Rattle.fields.specs.Stamps.{stamp_text as text_of_stamp};
ghost use Rattle.zonetext.specs.Stamps.{stamp_at};
ghost use Rattle.zonetext.specs.Writing.{Writable};
ghost use Rattle.zonewriter.specs.RowTexts.{AreTextsOf};

use calendar::dates::{Seconds, Stamp};
use fields::offsets::print_offset;
use fields::stamps::print_stamp;
use fields::types::{Offset, OffsetText};
use zone::rows::Row;

/// The text of the stamp at some seconds in range.
pub(crate) fn stamp_text(at: Seconds) -> [u8; 15]
    requires { InRange at.0 }
    ensures { result ≡ text_of_stamp (stamp_at at.0) }
{
    print_stamp(Stamp::try_from(at).unwrap()).unwrap()
}

/// The text of an offset below a day.
pub(crate) fn offset_text(seconds: i32) -> OffsetText
    requires { InDay (offset_of seconds) }
    ensures { PrintedAs (offset_of seconds) result }
{
    print_offset(Offset(seconds)).unwrap()
}

/// The texts of a row's values.
#[derive(Drop)]
pub(crate) struct RowTexts {
    pub start: [u8; 15],
    pub from: OffsetText,
    pub to: OffsetText,
}

/// The texts of a row's onset, in the local time that ends there, and of its offsets.
pub(crate) fn row_texts(row: Row) -> RowTexts
    requires { Writable row }
    ensures { AreTextsOf row result }
{
    RowTexts {
        start: stamp_text(Seconds(row.onset + row.from as i64)),
        from: offset_text(row.from),
        to: offset_text(row.to),
    }
}
