// Reads zone texts from standard input, prints what each of them says, and writes it again to see that the same bytes come.
#![tactic(auto)]

mod printing;

use anyhow::bail;
use copies::copying::copy;
use copies::parting::first_text;
use printing::print_copy;
use std::io::Read;
use zone::windows::Window;

/// The bytes of the buffer that texts are written into: more than any zone text has.
const BUFFER_BYTES: usize = 16_384;

// Goes through the texts of the input, and prints what each comes to, or what ends the run.
fn run(
    rt: &HostRuntime,
    input: &[u8],
    window: &mut Window,
    buffer: &mut [u8],
) -> anyhow::Result<()> {
    // By what is left of the input, and no iterator over texts: one at fault ends the run with the byte where it stands.
    let mut rest = input;
    while !rest.is_empty() {
        let Some(part) = first_text(rest) else {
            let at = input.len().saturating_sub(rest.len());
            println!(rt; "byte {at}: not understood")?;
            bail!("the input is at fault");
        };
        match copy(part.text, window, buffer) {
            Ok(copied) => print_copy(rt, copied, window)?,
            Err(refusal) => println!(rt; "{refusal}")?,
        }
        rest = part.more;
    }
    Ok(())
}

fn main(rt: HostRuntime) -> anyhow::Result<()> {
    let mut input = Vec::new(rt.alloc());
    let _ = rt.stdin().read_to_end(&mut input)?;
    let mut window = Window::new(rt.alloc())?;
    let mut buffer = [0; BUFFER_BYTES];
    run(&rt, input.as_slice(), &mut window, &mut buffer)
}
