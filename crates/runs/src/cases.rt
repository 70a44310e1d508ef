// One case: what run, loop and single ticks make of a job and its input.
use crate::guarded::{GUARD, front, is_guarded, part, rest};
use crate::output::{every, holds, number, reply, say};
use job::numbers::Counted;
use job::record::Job;
use std::io::{self, Write};
use verdict::judge::Verdict;

// The replies of run and loop, with the run's value table and so many of 80 places lent; then their values side by side, or that nothing was altered.
pub fn compare<W: Write>(
    out: &mut W,
    j: Job,
    input: &[u32],
    run: &mut [u32],
    lent: usize,
) -> io::Result<()> {
    let mut places = [GUARD; 80];
    let a = job::numbers::numbered(array::run::run_of(
        j,
        input,
        &mut run[..],
        part(&mut places, lent),
    ));
    reply(out, b"run", a, b" 0 ticks")?;
    unchanged(out, a, &run[..], &places)?;
    beside(out, j, input, a, &run[..])?;
    ticked(out, j, input, a, &run[..], &places)
}

// After a refusal: is everything as it was?
pub fn unchanged<W: Write>(
    out: &mut W,
    a: Counted,
    table: &[u32],
    places: &[u32],
) -> io::Result<()> {
    if a.number != 0 {
        holds(out, b"unchanged", is_guarded(table) & is_guarded(places))?;
    }
    Ok(())
}

// The loop's reply, and where the run was not refused, the values of both.
fn beside<W: Write>(out: &mut W, j: Job, input: &[u32], a: Counted, run: &[u32]) -> io::Result<()> {
    let mut looped = [GUARD; 81];
    let n = run.len();
    let b = job::numbers::numbered(array::loops::loop_of(j, input, part(&mut looped, n)));
    reply(out, b"loop", b, b" 0 points")?;
    unchanged(out, b, &looped, run)?;
    if a.number == 0 {
        streams(out, j, run, front(&looped, n))?;
    }
    Ok(())
}

// A line for each stream.
fn streams<W: Write>(out: &mut W, j: Job, run: &[u32], looped: &[u32]) -> io::Result<()> {
    for s in 0..j.m {
        stream(
            out,
            s,
            tables::rows::row_of(j, run, s),
            tables::rows::row_of(j, looped, s),
        )?;
    }
    Ok(())
}

// The values of one stream, by run and by loop.
fn stream<W: Write>(out: &mut W, s: u8, run: &[u32], looped: &[u32]) -> io::Result<()> {
    say(out, b"stream")?;
    number(out, u64::from(s))?;
    say(out, b" run")?;
    every(out, 1, run)?;
    say(out, b" loop")?;
    every(out, 1, looped)?;
    holds(out, b" same", run == looped)
}

// R of an accepted job.
fn room_of(j: Job) -> usize {
    let v = verdict::judge::verdict_of(j);
    let Verdict::Accepted(extent) = v else {
        return 0;
    };
    extent.room as usize
}

// Where the run was not refused: are the places past the first R as they were, and do single ticks from cleared places give its values and places?
fn ticked<W: Write>(
    out: &mut W,
    j: Job,
    input: &[u32],
    a: Counted,
    run: &[u32],
    places: &[u32],
) -> io::Result<()> {
    if a.number == 0 {
        let room = room_of(j);
        holds(out, b"beyond kept", is_guarded(rest(places, room)))?;
        holds(
            out,
            b"ticked same",
            is_ticked(j, input, a.count, run, front(places, room)),
        )?;
    }
    Ok(())
}

// Do they?
fn is_ticked(j: Job, input: &[u32], ticks: u64, run: &[u32], places: &[u32]) -> bool {
    let mut table = [GUARD; 81];
    let mut own = [0u32; 80];
    let n = run.len();
    let room = places.len();
    let answered = each_tick(j, input, ticks, part(&mut table, n), part(&mut own, room));
    answered & (run == front(&table, n)) & (places == front(&own, room))
}

// One tick after another. Does each answer the tick count?
fn each_tick(j: Job, input: &[u32], ticks: u64, table: &mut [u32], places: &mut [u32]) -> bool {
    let mut all = true;
    for t in 0..ticks {
        let a = job::numbers::numbered(array::run::tick_of(
            j,
            t,
            input,
            &mut table[..],
            &mut places[..],
        ));
        all = all & (a.number == 0) & (a.count == ticks);
    }
    all
}
