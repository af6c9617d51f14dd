// A text read, and what was read written again.
ghost use Rattle.std.specs.Prelude.{◌≡◌, length};
ghost use Rattle.zone.specs.Refusals.{outcome};
ghost use Rattle.zonetext.specs.Laws.{IsTextOf, OneText};
ghost use Rattle.zonetext.specs.Reading.{LeftAlone, reading, told, zone_in};
ghost use Rattle.copies.specs.Copies.{Copies, fitting, named, overlaid};

use super::copied::Copied;
use names::name::Name;
use zone::refusals::Refusal;
use zone::windows::Window;
use zonetext::reading::read;
use zonewriter::writing::write;

// Writes the window's text into the buffer, and answers its length if it is this text.
fn rewrite(name: Name, window: &Window, text: &[u8], buffer: &mut [u8]) -> Option<usize>
    requires { IsTextOf text.now (zone_in name window.now) }
    ensures is { result ≡ fitting (length text.now) (length buffer.old) }
    ensures after { buffer.new ≡ overlaid text.now buffer.old }
{
    let n = write(name, window, buffer).ok()?;
    (&buffer[..n] == text).then_some(n)
}

/// Reads the text into the window, and writes what was read into the buffer: the same bytes come again, where the buffer has room for them.
pub fn copy(text: &[u8], window: &mut Window, buffer: &mut [u8]) -> Result<Copied, Refusal>
    ensures is { told (outcome (named result)) window.new ≡ reading text.now }
    ensures refused { LeftAlone (named result) window.old window.new }
    ensures copies { Copies result text.now buffer.old buffer.new }
    ensures one_text { OneText }
{
    let name = read(text, window)?;
    let written = rewrite(name, window, text, buffer);
    Ok(Copied { name, written })
}
