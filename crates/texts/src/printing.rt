// What the program prints. The words are this program's, so they are no `Display` of the types.
use anyhow::bail;
use copies::copied::Copied;
use zone::rows::{Interval, Row};
use zone::windows::Window;

// Prints a row.
fn print_row(rt: &HostRuntime, row: Row) -> anyhow::Result<()> {
    let Row {
        onset,
        from,
        to,
        observance,
    } = row;
    let day = u8::from(observance);
    println!(rt; "row {onset} {from} {to} {day}")?;
    Ok(())
}

/// Prints a text that was read, and how many bytes were written; ends the run where they were others.
pub fn print_copy(rt: &HostRuntime, copied: Copied, window: &Window) -> anyhow::Result<()> {
    print!(rt; "read ")?;
    rt.write_all(copied.name.text())?;
    let Interval { start, end } = window.interval;
    let count = window.rows.len();
    println!(rt; " {start} {end} {count}")?;
    for row in &window.rows {
        print_row(rt, *row)?;
    }
    let Some(n) = copied.written else {
        println!(rt; "written otherwise")?;
        bail!("the text is not written as it was read");
    };
    println!(rt; "written {n}")?;
    Ok(())
}
