// How many rows a zone text has.
ghost use Rattle.std.specs.Prelude.{◌≡◌, if◌then◌else◌};
ghost use Rattle.zonetext.specs.Reading.{reading};
ghost use Rattle.exports.specs.Counting.{rows_of};

use std::alloc::Global;
use zone::windows::Window;
use zonetext::reading::read;

// How many rows the text has, read into this window; 0 where it is refused.
fn count(text: &[u8], window: &mut Window) -> usize
    ensures { result ≡ rows_of (reading text.now) }
{
    match read(text, window) {
        Ok(_) => window.rows.len(),
        Err(_) => 0,
    }
}

/// Puts how many rows the text has, 0 where it is refused, and answers true; answers false and puts nothing where there is no memory for a window.
// The answer is a bool and the count goes through a pointer, since C calls it so.
#[unsafe(no_mangle)]
pub extern "C" fn rofskenu_count_rows(heap: Global, text: &[u8], rows: &mut usize) -> bool
    ensures { rows.new ≡ (if result then rows_of (reading text.now) else rows.old) }
{
    let Ok(mut window) = Window::new(heap) else {
        return false;
    };
    *rows = count(text, &mut window);
    true
}
