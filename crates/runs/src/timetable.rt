// Which point is worked in which tick at which cell.
use crate::output::{number, say};
use job::record::Job;
use std::io::{self, Write};

// A line for each tick.
pub fn timetable<W: Write>(
    out: &mut W,
    title: &[u8],
    j: Job,
    ticks: u64,
    cells: u64,
) -> io::Result<()> {
    say(out, title)?;
    for t in 0..ticks {
        tick_line(out, j, t, cells)?;
    }
    Ok(())
}

// The line of one tick.
fn tick_line<W: Write>(out: &mut W, j: Job, t: u64, cells: u64) -> io::Result<()> {
    say(out, b"tick")?;
    number(out, t)?;
    say(out, b":")?;
    cells_of(out, j, t, cells)?;
    say(out, b"\n")
}

// The points of a tick, cell by cell.
fn cells_of<W: Write>(out: &mut W, j: Job, t: u64, cells: u64) -> io::Result<()> {
    for x in 0..cells {
        worked(out, j, t, x)?;
    }
    Ok(())
}

// A blank and the point that is worked, or - for none.
fn worked<W: Write>(out: &mut W, j: Job, t: u64, x: u64) -> io::Result<()> {
    say(out, b" ")?;
    let w = array::lookup::point_at(j, t, x);
    match w {
        Ok(Some(p)) => crate::output::point(out, p, j.n),
        Ok(None) => say(out, b"-"),
        Err(v) => {
            let a = verdict::numbers::in_numbers(v);
            say(out, b"refused")?;
            number(out, u64::from(a.number))
        }
    }
}
