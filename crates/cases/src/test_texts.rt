// Texts that are read and written again, and texts that fail.
use names::name::Name;
use std::process::Abort;
use std::test::Fail;
use zone::refusals::Refusal;
use zone::windows::Window;
use zonetext::reading::read;
use zonewriter::writing::write;

// Paris from the spring of 2024 to the end of that year.
const PARIS: &[u8] =
    b"BEGIN:VTIMEZONE\r\nTZID:Europe/Paris\r\nTZUNTIL:20250101T000000Z\r\nBEGIN:DAYLIGHT\r\nDTSTART:20240331T020000\r\nTZOFFSETFROM:+0100\r\nTZOFFSETTO:+0200\r\nEND:DAYLIGHT\r\nBEGIN:STANDARD\r\nDTSTART:20241027T030000\r\nTZOFFSETFROM:+0200\r\nTZOFFSETTO:+0100\r\nEND:STANDARD\r\nEND:VTIMEZONE\r\n";

// Passes if the text is refused at this byte.
fn fails(rt: &impl Abort, text: &[u8], window: &mut Window, at: usize) {
    assert_eq!(rt; read(text, window), Err(Refusal::BadText { offset: at }));
}

#[test]
fn round_trip(rt: HostRuntime) -> Result<(), Fail> {
    let mut window = Window::new(rt.alloc())?;
    let name = read(PARIS, &mut window)?;
    assert!(rt; name.text() == b"Europe/Paris".as_slice());
    assert_eq!(rt; window.interval.start, 1711846800);
    assert_eq!(rt; window.interval.end, 1735689600);
    assert_eq!(rt; window.rows.len(), 2);
    let mut buffer = [7; 270];
    assert_eq!(rt; write(name, &window, &mut buffer)?, 263);
    assert!(rt; &buffer[0..263] == PARIS);
    assert!(rt; &buffer[263..] == [7; 7].as_slice());
    Ok(())
}

#[test]
fn short_buffer(rt: HostRuntime) -> Result<(), Fail> {
    let window = Window::new(rt.alloc())?;
    let mut buffer = [7; 100];
    let utc = Name::from_text(b"Etc/UTC");
    assert_eq!(rt;
        write(utc, &window, &mut buffer),
        Err(Refusal::BufferTooShort)
    );
    let none = Name::from_text(b"");
    assert_eq!(rt; write(none, &window, &mut buffer), Err(Refusal::BadName));
    assert!(rt; &buffer == &[7; 100]);
    Ok(())
}

#[test]
fn failing_texts(rt: HostRuntime) -> Result<(), Fail> {
    let mut window = Window::new(rt.alloc())?;
    fails(&rt, b"", &mut window, 0);
    fails(&rt, b"BEGIN:VTIMEZONE", &mut window, 15);
    fails(
        &rt,
        b"BEGIN:VTIMEZONE\r\nTZID:Europe/Paris\r\n",
        &mut window,
        36,
    );
    fails(&rt, b"BEGIN:VTIMEZONE\r\nTZID:\r\n", &mut window, 17);
    fails(
        &rt,
        b"BEGIN:VTIMEZONE\nTZID:Europe/Paris\r\n",
        &mut window,
        0,
    );
    fails(
        &rt,
        b"BEGIN:VTIMEZONE\r\nTZID:A\r\nTZUNTIL:19000101T000000Z\r\n",
        &mut window,
        25,
    );
    fails(
        &rt,
        b"BEGIN:VTIMEZONE\r\nTZID:A\r\nTZUNTIL:20250101T000000Z\r\nEND:VTIMEZONE\r\n",
        &mut window,
        51,
    );
    fails(&rt, &PARIS[0..262], &mut window, 262);
    assert_eq!(rt; window.rows.len(), 1);
    Ok(())
}
