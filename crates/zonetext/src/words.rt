// The fixed names of the text, which the reader here compares and the writer of `zonewriter` puts.

/// Ends a line.
pub const CR_LF: &[u8] = b"\r\n";

/// Ends a time that is in UTC.
pub const UTC: &[u8] = b"Z";

/// Opens a component.
pub const BEGIN: &[u8] = b"BEGIN";

/// Closes a component.
pub const END: &[u8] = b"END";

/// The component that is the whole text.
pub const VTIMEZONE: &[u8] = b"VTIMEZONE";

/// The component of a row in standard time.
pub const STANDARD: &[u8] = b"STANDARD";

/// The component of a row in daylight saving time.
pub const DAYLIGHT: &[u8] = b"DAYLIGHT";

/// The zone's name.
pub const TZID: &[u8] = b"TZID";

/// The end of the window, in UTC.
pub const TZUNTIL: &[u8] = b"TZUNTIL";

/// The onset of a row, in the local time that ends there.
pub const DTSTART: &[u8] = b"DTSTART";

/// The offset before the onset.
pub const TZOFFSETFROM: &[u8] = b"TZOFFSETFROM";

/// The offset from the onset on.
pub const TZOFFSETTO: &[u8] = b"TZOFFSETTO";
