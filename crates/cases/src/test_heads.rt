// Head lines that are understood, and others.
use copies::parting::first_text;
use std::process::Abort;
use std::test::Fail;

// Passes if the input begins with this text, and these bytes follow.
fn begins(rt: &impl Abort, input: &[u8], text: &[u8], more: &[u8]) -> Result<(), Fail> {
    let part = first_text(input).ok_or("not understood")?;
    assert!(rt; part.text == text);
    assert!(rt; part.more == more);
    Ok(())
}

#[test]
fn understood(rt: HostRuntime) -> Result<(), Fail> {
    begins(&rt, b"text 3\nabc", b"abc", b"")?;
    begins(&rt, b"text 2\nabc", b"ab", b"c")?;
    begins(&rt, b"text 0\n", b"", b"")?;
    begins(&rt, b"text 02\n\n\n\n", b"\n\n", b"\n")
}

#[test]
fn not_understood(rt: HostRuntime) {
    for input in [
        b"text 4\nabc",
        b"text 3abcd",
        b"text +3\nab",
        b"text -0\nab",
        b"text  3\nab",
        b"text \nabcd",
        b"Text 3\nabc",
        b"text 3\r\nab",
        b"texts 3\nab",
        b"text 99999",
    ] {
        assert!(rt; first_text(input).is_none());
    }
    assert!(rt; first_text(b"text 99999999999999999999999999\n").is_none());
}
