// Bytes and lines put into a buffer, one after another.
ghost use Rattle.std.specs.Prelude.{◌≡◌, ◌+◌, ◌≤◌, length};
ghost use Rattle.zonetext.specs.Writing.{line_text};
ghost use Rattle.zonewriter.specs.Puts.{HasRoom, Puts};

use zonetext::words::CR_LF;

// That the buffer stays the one that was lent stands in each contract beside `Puts`: it is about the reference, and `Puts` about the bytes.
// No `io::Write` of a slice: its contract does not say which bytes were put.
/// A buffer that is lent, and how many of its bytes are written.
#[derive(Drop)]
pub(crate) struct Writer<'a> {
    buffer: &'a mut [u8],
    pub(crate) len: usize,
}

impl<'a> Writer<'a> {
    /// A writer that stands at the front of the buffer.
    pub(crate) fn new(buffer: &'a mut [u8]) -> Writer<'a>
        ensures same_buffer { result.buffer.ghost_name ≡ buffer.entry.ghost_name }
        ensures bytes { result.buffer.now ≡ buffer.old }
        ensures front { result.len ≡ 0 }
    {
        Writer { buffer, len: 0 }
    }

    /// Puts the bytes.
    fn put(&mut self, bytes: &[u8])
        requires { HasRoom self.old bytes.now }
        ensures same_buffer { self.new.buffer.ghost_name ≡ self.old.buffer.ghost_name }
        ensures puts { Puts self.old bytes.now self.new }
    {
        let end = self.len + bytes.len();
        self.buffer[self.len..end].copy_from_slice(bytes);
        self.len = end;
    }

    /// Puts a line, with its CR LF.
    pub(crate) fn line(&mut self, name: &[u8], value: &[u8])
        requires { HasRoom self.old (line_text name.now value.now) }
        ensures same_buffer { self.new.buffer.ghost_name ≡ self.old.buffer.ghost_name }
        ensures puts { Puts self.old (line_text name.now value.now) self.new }
    {
        self.put(name);
        self.put(b":");
        self.put(value);
        self.put(CR_LF);
    }
}
