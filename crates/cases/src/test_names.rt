// Names by their length and bytes, and in their order.
use names::name::Name;
use names::naming::*;

/// Texts, and whether each is a name's.
#[test]
fn texts(rt: HostRuntime) {
    let long = [b'z'; 49];
    let known: [(&[u8], bool); 10] = [
        (&long[0..0], false),
        (&long[0..1], true),
        (&long[0..48], true),
        (&long[0..49], false),
        (b"Europe/Amsterdam", true),
        (b"Etc/GMT+12_A-9", true),
        (b"a b", false),
        (b"a.b", false),
        (b"a\0b", false),
        (b"caf\xc3\xa9", false),
    ];
    for (text, valid) in known {
        let name = Name::from_text(text);
        assert_eq!(rt; is_name_text(text), valid);
        assert_eq!(rt; name.is_valid(), valid);
        assert!(rt; !valid || name.text() == text);
    }
}

/// A name byte after a zero byte, and a first byte of zero.
#[test]
fn inner_zero(rt: HostRuntime) {
    let name = Name::from_text(b"AB");
    let mut bytes = name.bytes;
    bytes[3] = b'D';
    assert!(rt; !Name { bytes }.is_valid());
    assert!(rt; Name { bytes } != name);
    bytes[2] = b'C';
    assert!(rt; Name { bytes } == Name::from_text(b"ABCD"));
    bytes[0] = 0;
    assert!(rt; !Name { bytes }.is_valid());
}

/// Byte order: at the first difference, and by length.
#[test]
fn order(rt: HostRuntime) {
    let known: [(&[u8], &[u8], bool); 6] = [
        (b"A", b"B", true),
        (b"B", b"A", false),
        (b"A", b"A", false),
        (b"A", b"A+", true),
        (b"Ab", b"AB", false),
        (b"Etc/GMT+1", b"Etc/GMT-1", true),
    ];
    for (a, b, before) in known {
        assert_eq!(rt; Name::from_text(a).is_before(&Name::from_text(b)), before);
    }
}
