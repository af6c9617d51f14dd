// The worked window: its local times and its cuts; and cuts that are refused.
use super::year::{rows, year};
use cutting::cuts::*;
use cutting::locals::*;
use cutting::look::local_time;
use std::alloc::{AllocError, Global};
use std::test::Fail;
use zone::refusals::Refusal;
use zone::rows::*;
use zone::windows::{Table, Window};

/// A row.
fn row(onset: i64, from: i32, to: i32, observance: Observance) -> Row {
    Row {
        onset,
        from,
        to,
        observance,
    }
}

/// The window of the worked year.
fn window_of_the_year(heap: Global) -> Result<Window, AllocError> {
    let mut window = Window::new(heap)?;
    let _ = window.fill(year(), &rows());
    Ok(window)
}

/// The local time a second before and at each change, and at both ends.
#[test]
fn local_times(rt: HostRuntime) -> Result<(), Fail> {
    let window = window_of_the_year(rt.alloc())?;
    for (at, time, observance) in [
        (1704067200, 1704070800, Observance::Standard),
        (1711846799, 1711850399, Observance::Standard),
        (1711846800, 1711854000, Observance::Daylight),
        (1729990799, 1729997999, Observance::Daylight),
        (1729990800, 1729994400, Observance::Standard),
        (1735689599, 1735693199, Observance::Standard),
    ] {
        let offset = if observance == Observance::Daylight {
            7200
        } else {
            3600
        };
        assert_eq!(rt;
            local_time(&window, Instant(at)),
            Ok(Local {
                time,
                offset,
                observance,
            })
        );
    }
    for at in [1704067199, 1735689600, i64::MIN, i64::MAX] {
        assert_eq!(rt;
            local_time(&window, Instant(at)),
            Err(Refusal::OutsideWindow)
        );
    }
    Ok(())
}

/// The cut of the year, row by row.
#[test]
fn cuts_of_the_year(rt: HostRuntime) -> Result<(), Fail> {
    let window = window_of_the_year(rt.alloc())?;
    let mut place = Window::new(rt.alloc())?;
    let summer = Interval {
        start: 1711846800,
        end: 1729990800,
    };
    assert_eq!(rt; cut_window(&window, summer, &mut place), Ok(()));
    assert_eq!(rt; place.interval, summer);
    assert!(rt;
        place.rows.as_slice() == [row(1711846800, 3600, 7200, Observance::Daylight)].as_slice()
    );
    let later = Interval {
        start: 1711846801,
        end: 1729990801,
    };
    assert_eq!(rt; cut_window(&window, later, &mut place), Ok(()));
    assert_eq!(rt; place.interval, later);
    assert!(rt;
        place.rows.as_slice()
            == [
                row(1711846801, 7200, 7200, Observance::Daylight),
                row(1729990800, 7200, 3600, Observance::Standard),
            ]
            .as_slice()
    );
    Ok(())
}

/// Outside by a second at either end, and empty: refused with 3, and the lent window is as it was.
#[test]
fn outside(rt: HostRuntime) -> Result<(), Fail> {
    let window = window_of_the_year(rt.alloc())?;
    let mut place = window_of_the_year(rt.alloc())?;
    for (start, end) in [
        (1704067199, 1735689600),
        (1704067200, 1735689601),
        (1711846800, 1711846800),
        (1711846801, 1711846800),
    ] {
        let cut = cut_window(&window, Interval { start, end }, &mut place);
        assert_eq!(rt; cut, Err(CutRefusal::OutsideSpan));
        assert_eq!(rt; place.interval, window.interval);
        assert!(rt; place.rows.as_slice() == window.rows.as_slice());
    }
    assert_eq!(rt; u8::from(CutRefusal::OutsideSpan), 3);
    Ok(())
}

/// A table of UTC with so many rows, a second apart, from 1970 on.
fn seconds(heap: Global, n: u16) -> Result<Table, AllocError> {
    let mut rows = Vec::new(heap);
    for i in 0..n {
        rows.push(row(i64::from(i), 0, 0, Observance::Standard))?;
    }
    let interval = Interval {
        start: 0,
        end: i64::from(n),
    };
    Ok(Table { interval, rows })
}

/// Tables whose cut has 64 rows, or more: those are refused with 6, and the lent window is as it was.
#[test]
fn too_many(rt: HostRuntime) -> Result<(), Fail> {
    let mut place = Window::new(rt.alloc())?;
    for (n, start, end, fits) in [
        (66, 0, 66, false),
        (66, 1, 66, false),
        (65, 0, 65, false),
        (65, 0, 64, true),
        (65, 1, 65, true),
    ] {
        let table = seconds(rt.alloc(), n)?;
        let before = place.interval;
        let to = Interval { start, end };
        let cut = cut_table(&table, to, &mut place);
        assert_eq!(rt;
            cut,
            if fits {
                Ok(())
            } else {
                Err(CutRefusal::TooManyRows)
            }
        );
        assert_eq!(rt; place.interval, if fits { to } else { before });
        assert_eq!(rt; place.rows.len(), if fits { 64 } else { 1 });
    }
    Ok(())
}
