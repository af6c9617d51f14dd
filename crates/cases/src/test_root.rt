// A short history of publications, fetched, and every refusal of a root.
use names::name::Name;
use provider::providers::Provider;
use provider::publishing::Publishing;
use provider::requests::{Reply, Request, Tag};
use root::roots::Root;
use std::alloc::{AllocError, Global};
use std::test::Fail;
use zone::intervals::ERA;
use zone::refusals::Refusal;
use zone::rows::{Interval, Observance, Row};
use zone::windows::{Table, Window};

// A table over the era with one row.
fn table(heap: Global, to: i32) -> Result<Table, AllocError> {
    let mut rows = Vec::new(heap);
    rows.push(Row {
        onset: ERA.start,
        from: to,
        to,
        observance: Observance::Standard,
    })?;
    Ok(Table {
        interval: ERA,
        rows,
    })
}

// A request for the whole era.
fn ask(text: &[u8], known: Tag) -> Request {
    Request {
        name: Name::from_text(text),
        interval: ERA,
        known,
    }
}

/// The worked example: the tags of A after each publication, and what B has.
#[test]
fn history(rt: HostRuntime) -> Result<(), Fail> {
    let (a, b) = (Name::from_text(b"A"), Name::from_text(b"B"));
    let (t, u) = (table(rt.alloc(), 0)?, table(rt.alloc(), 3600)?);
    let mut root = Root::new(rt.alloc(), 4, 4)?;
    let mut place = Window::new(rt.alloc())?;
    assert_eq!(rt; root.publish(a, &t), Ok(1));
    assert_eq!(rt; root.publish(b, &u), Ok(2));
    assert_eq!(rt; root.publish(a, &t), Ok(3));
    let fresh = Reply::Fresh { edition: 3, tag: 1 };
    assert_eq!(rt; root.fetch(ask(b"A", 0), &mut place), Ok(fresh));
    assert_eq!(rt; place.rows.len(), 1);
    let unchanged = Reply::Unchanged { edition: 3 };
    assert_eq!(rt; root.fetch(ask(b"A", 1), &mut place), Ok(unchanged));
    assert_eq!(rt; root.publish(a, &u), Ok(4));
    let fresh = Reply::Fresh { edition: 4, tag: 4 };
    assert_eq!(rt; root.fetch(ask(b"A", 1), &mut place), Ok(fresh));
    let fresh = Reply::Fresh { edition: 4, tag: 2 };
    assert_eq!(rt; root.fetch(ask(b"B", 4), &mut place), Ok(fresh));
    assert_eq!(rt; root.publish(b, &t), Err(Refusal::DoesNotFit));
    Ok(())
}

/// What is refused, and that a refused publication leaves nothing.
#[test]
fn refusals(rt: HostRuntime) -> Result<(), Fail> {
    let mut root = Root::new(rt.alloc(), 2, 1)?;
    let mut place = Window::new(rt.alloc())?;
    let (t, mut u) = (table(rt.alloc(), 0)?, table(rt.alloc(), 3600)?);
    assert_eq!(rt;
        root.fetch(ask(b"A B", 0), &mut place),
        Err(Refusal::BadName)
    );
    let mut none = ask(b"A", 0);
    none.interval = Interval { start: 5, end: 5 };
    assert_eq!(rt; root.fetch(none, &mut place), Err(Refusal::BadInterval));
    assert_eq!(rt; root.fetch(ask(b"A", 0), &mut place), Err(Refusal::Silent));
    assert_eq!(rt;
        root.publish(Name::from_text(b""), &t),
        Err(Refusal::BadName)
    );
    u.interval = Interval { start: 0, end: 1 };
    assert_eq!(rt;
        root.publish(Name::from_text(b"A"), &u),
        Err(Refusal::NotATable)
    );
    assert_eq!(rt; root.fetch(ask(b"A", 0), &mut place), Err(Refusal::Silent));
    assert_eq!(rt; root.publish(Name::from_text(b"A"), &t), Ok(1));
    let absent = Refusal::NoPage { edition: 1 };
    assert_eq!(rt; root.fetch(ask(b"B", 0), &mut place), Err(absent));
    assert_eq!(rt;
        root.publish(Name::from_text(b"B"), &t),
        Err(Refusal::DoesNotFit)
    );
    assert_eq!(rt; root.fetch(ask(b"B", 0), &mut place), Err(absent));
    Ok(())
}

/// The last edition is 65,535: one publication more is refused, although the storage has room.
#[test]
fn last_edition(rt: HostRuntime) -> Result<(), Fail> {
    let name = Name::from_text(b"A");
    let table = table(rt.alloc(), 0)?;
    let mut root = Root::new(rt.alloc(), 65_536, 65_536)?;
    let mut place = Window::new(rt.alloc())?;
    for i in 0..65_535u16 {
        assert_eq!(rt; root.publish(name, &table), Ok(i + 1));
    }
    assert_eq!(rt; root.publish(name, &table), Err(Refusal::DoesNotFit));
    let fresh = Reply::Fresh {
        edition: 65_535,
        tag: 1,
    };
    assert_eq!(rt; root.fetch(ask(b"A", 0), &mut place), Ok(fresh));
    Ok(())
}
