// Rows by their number and their ends; observances and refusals by their numbers.
use std::alloc::{AllocError, Global};
use std::test::Fail;
use zone::deciding::*;
use zone::intervals::ERA;
use zone::refusals::Refusal;
use zone::rows::*;
use zone::windows::Window;

/// So many rows of UTC, a second apart, from 1970 on.
fn seconds(heap: Global, n: u16) -> Result<Vec<Row>, AllocError> {
    let mut rows = Vec::new(heap);
    for i in 0..n {
        rows.push(Row {
            onset: i64::from(i),
            from: 0,
            to: 0,
            observance: Observance::Standard,
        })?;
    }
    Ok(rows)
}

/// The most rows of a window and of a table, and one more.
#[test]
fn most_rows(rt: HostRuntime) -> Result<(), Fail> {
    let interval = Interval {
        start: 0,
        end: 1000,
    };
    for (n, window, table) in [
        (0, false, false),
        (1, true, true),
        (64, true, true),
        (65, false, true),
        (512, false, true),
        (513, false, false),
    ] {
        let rows = seconds(rt.alloc(), n)?;
        assert_eq!(rt; is_window(interval, rows.as_slice()), window);
        assert_eq!(rt; is_table(interval, rows.as_slice()), table);
    }
    Ok(())
}

/// The ends of the era, and a second past each: a refused filling leaves the window as it was.
#[test]
fn ends_of_the_era(rt: HostRuntime) -> Result<(), Fail> {
    let mut window = Window::new(rt.alloc())?;
    for (start, end, valid) in [
        (ERA.start, ERA.start + 1, true),
        (ERA.end - 1, ERA.end, true),
        (ERA.start - 1, ERA.end, false),
        (ERA.start, ERA.end + 1, false),
        (ERA.start, ERA.start, false),
        (ERA.start, ERA.end, true),
    ] {
        let row = Row {
            onset: start,
            from: 0,
            to: -86399,
            observance: Observance::Daylight,
        };
        let before = window.interval;
        let interval = Interval { start, end };
        assert_eq!(rt; window.fill(interval, &[row]).is_ok(), valid);
        assert_eq!(rt; window.interval, if valid { interval } else { before });
    }
    Ok(())
}

/// The numbers of observances, there and back, and one that stands for none.
#[test]
fn observances(rt: HostRuntime) {
    for (number, observance) in [(0u8, Observance::Standard), (1u8, Observance::Daylight)] {
        assert_eq!(rt; u8::from(observance), number);
        assert_eq!(rt; Observance::try_from(number), Ok(observance));
    }
    assert_eq!(rt; Observance::try_from(2u8), Err(UnknownObservance(2)));
}

/// Refusals as text: the number alone, with an edition, and with an offset.
#[test]
fn refusals(rt: HostRuntime) -> Result<(), Fail> {
    for (refusal, text) in [
        (Refusal::Silent, "refused 4"),
        (Refusal::NoPage { edition: 7 }, "refused 5 edition 7"),
        (Refusal::BadText { offset: 12 }, "refused 15 12"),
    ] {
        let shown = format!(in rt.alloc(); "{refusal}")?;
        assert!(rt; shown.as_str() == text);
    }
    Ok(())
}
