// A snapshot of two zones, fetched, and snapshots that are not good.
use names::name::Name;
use provider::providers::Provider;
use provider::requests::{Edition, Reply, Request, Tag};
use snapshot::snapshots::Snapshot;
use snapshot::zones::Zone;
use std::alloc::{AllocError, Global};
use std::test::Fail;
use zone::intervals::ERA;
use zone::refusals::Refusal;
use zone::windows::Window;

// A zone over the era.
fn zone(heap: Global, text: &[u8], tag: Tag) -> Result<Zone, AllocError> {
    Ok(Zone {
        name: Name::from_text(text),
        tag,
        window: Window::new(heap)?,
    })
}

// A snapshot of two zones.
fn two(heap: Global, edition: Edition, a: Zone, b: Zone) -> Result<Snapshot, AllocError> {
    let mut zones = Vec::new(heap);
    zones.push(a)?;
    zones.push(b)?;
    Ok(Snapshot::new(edition, ERA, zones))
}

// A request for the whole era.
fn ask(text: &[u8], known: Tag) -> Request {
    Request {
        name: Name::from_text(text),
        interval: ERA,
        known,
    }
}

/// Pages of a good snapshot, and what it refuses.
#[test]
fn good(rt: HostRuntime) -> Result<(), Fail> {
    let heap = rt.alloc();
    let mut snapshot = two(heap, 7, zone(heap, b"A", 3)?, zone(heap, b"B", 7)?)?;
    let mut place = Window::new(heap)?;
    let fresh = Reply::Fresh { edition: 7, tag: 3 };
    assert_eq!(rt; snapshot.fetch(ask(b"A", 7), &mut place), Ok(fresh));
    let unchanged = Reply::Unchanged { edition: 7 };
    assert_eq!(rt; snapshot.fetch(ask(b"B", 7), &mut place), Ok(unchanged));
    let absent = Refusal::NoPage { edition: 7 };
    assert_eq!(rt; snapshot.fetch(ask(b"C", 0), &mut place), Err(absent));
    assert_eq!(rt;
        snapshot.fetch(ask(b"", 0), &mut place),
        Err(Refusal::BadName)
    );
    Ok(())
}

/// Names that do not rise, and a tag later than the edition, are silent.
#[test]
fn silent(rt: HostRuntime) -> Result<(), Fail> {
    let heap = rt.alloc();
    let mut place = Window::new(heap)?;
    let mut falling = two(heap, 7, zone(heap, b"B", 3)?, zone(heap, b"A", 7)?)?;
    assert_eq!(rt;
        falling.fetch(ask(b"A", 0), &mut place),
        Err(Refusal::Silent)
    );
    let mut late = two(heap, 6, zone(heap, b"A", 3)?, zone(heap, b"B", 7)?)?;
    assert_eq!(rt; late.fetch(ask(b"A", 0), &mut place), Err(Refusal::Silent));
    assert_eq!(rt; late.span(), ERA);
    Ok(())
}
