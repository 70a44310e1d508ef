// Run and loop side by side, on the paper's small jobs, on matrix products and on jobs that are refused.

#![tactic(auto)]

mod cases;
mod guarded;
mod inputs;
mod jobs;
mod output;
mod timetable;

use crate::cases::{compare, unchanged};
use crate::guarded::{GUARD, front, part};
use crate::inputs::{matrices, numbers};
use crate::jobs::vector;
use crate::output::{every, reply, say};
use crate::timetable::timetable;
use job::numbers::Counted;
use job::record::Job;
use space::vector::Vector;
use std::io::{self, Write};

fn main(rt: HostRuntime) -> io::Result<()> {
    let mut writer = io::writer(&rt);
    let out = &mut writer;
    starred(out)?;
    accepted(out)?;
    further(out)?;
    products(out)?;
    refused(out)?;
    lent(out)?;
    ticks(out)?;
    timetables(out)?;
    bytes(out)
}

// The largest value.
const MOST: u32 = 4294967295;

// The job with replies in the paper: 1 gives 2, 6, 42, and the largest value gives 0, 0, 0. By rule 2 each step doubles, modulo 2^32, where that is less.
fn starred<W: Write>(out: &mut W) -> io::Result<()> {
    numbered(out, b"line, input 1\n", crate::jobs::line(1), 1, 3)?;
    numbered(
        out,
        b"line, input 4294967295\n",
        crate::jobs::line(1),
        MOST,
        3,
    )?;
    numbered(out, b"line, rule 2\n", crate::jobs::line(2), MOST, 3)
}

// The accepted jobs of the paper's list.
fn accepted<W: Write>(out: &mut W) -> io::Result<()> {
    numbered(out, b"cube\n", crate::jobs::cube(), 1, 81)?;
    numbered(out, b"oblong\n", crate::jobs::oblong(), 1, 36)?;
    numbered(out, b"stretched\n", crate::jobs::stretched(), 1, 12)?;
    numbered(out, b"slanted, local\n", crate::jobs::slanted(1), 1, 8)
}

// One point; and hops back, several ticks per hop, a delay in place, every rule.
fn further<W: Write>(out: &mut W) -> io::Result<()> {
    numbered(out, b"one point\n", crate::jobs::point(), 1, 1)?;
    numbered(out, b"woven\n", crate::jobs::woven(), 1, 36)
}

// a = (2 7 1, 8 2 8, 1 8 2) times b = (3 1 4, 1 5 9, 2 6 5) is (15 43 76, 42 66 90, 15 53 86). The least of a[i][k] + b[k][j] over k is (3 3 6, 3 7 11, 4 2 5).
fn products<W: Write>(out: &mut W) -> io::Result<()> {
    let i = vector(1, 0, 0);
    let j = vector(0, 1, 0);
    let k = vector(0, 0, 1);
    product(out, b"product, c stays\n", 1, i, j, 0)?;
    product(out, b"product, c moves\n", 1, i, k, 0)?;
    product(
        out,
        b"product, all move\n",
        1,
        vector(1, 0, -1),
        vector(0, 1, -1),
        0,
    )?;
    product(out, b"smallest sums\n", 2, i, j, MOST)
}

// Jobs that are refused by a link, by the limits, by their room.
fn refused<W: Write>(out: &mut W) -> io::Result<()> {
    numbered(out, b"slanted, through\n", crate::jobs::slanted(0), 1, 8)?;
    numbered(out, b"line, rule 3\n", crate::jobs::line(3), 1, 3)?;
    numbered(out, b"room 8256\n", crate::jobs::delayed(127), 1, 4)?;
    numbered(out, b"room 8192\n", crate::jobs::delayed(126), 1, 4)
}

// Tables and places that are too short, or just long enough.
fn lent<W: Write>(out: &mut W) -> io::Result<()> {
    sized(
        out,
        b"cube, input too short\n",
        crate::jobs::cube(),
        1,
        80,
        81,
        80,
    )?;
    sized(
        out,
        b"cube, values too short\n",
        crate::jobs::cube(),
        1,
        81,
        80,
        80,
    )?;
    sized(
        out,
        b"cube, 26 places\n",
        crate::jobs::cube(),
        1,
        81,
        81,
        26,
    )?;
    sized(
        out,
        b"oblong, 12 places\n",
        crate::jobs::oblong(),
        1,
        36,
        36,
        12,
    )
}

// A job of n values, with the inputs from first on.
fn numbered<W: Write>(out: &mut W, title: &[u8], j: Job, first: u32, n: usize) -> io::Result<()> {
    sized(out, title, j, first, n, n, 80)
}

// The same with so many inputs, values and places.
fn sized<W: Write>(
    out: &mut W,
    title: &[u8],
    j: Job,
    first: u32,
    inputs: usize,
    n: usize,
    lent: usize,
) -> io::Result<()> {
    let input = numbers(first);
    let mut run = [GUARD; 81];
    say(out, title)?;
    compare(out, j, front(&input, inputs), part(&mut run, n), lent)
}

// A rule on the matrices, and every third value of stream 2, the last of each sum: the result, row by row. (The rule is a number, here and below: see `jobs`.)
fn product<W: Write>(
    out: &mut W,
    title: &[u8],
    rule: u8,
    row0: Vector,
    row1: Vector,
    x: u32,
) -> io::Result<()> {
    let j = crate::jobs::gathering(rule, 1, row0, row1);
    let input = matrices(x);
    let mut run = [GUARD; 81];
    say(out, title)?;
    compare(out, j, &input, &mut run, 80)?;
    say(out, b"result")?;
    every(out, 3, tables::rows::row_of(j, &run, 2))?;
    say(out, b"\n")
}

// Single ticks: refused ones, and tick 1 from the places 5 6 7 as they are. There point 1 takes 5 and gives 30, and the other cells pass on what arrives.
fn ticks<W: Write>(out: &mut W) -> io::Result<()> {
    say(out, b"single ticks of the line\n")?;
    tick(out, [7, 7, 7], 1, 3, 3, 3)?;
    tick(out, [7, 7, 7], 1, 3, 3, 2)?;
    tick(out, [7, 7, 7], 1, 0, 2, 3)?;
    tick(out, [7, 7, 7], 3, 0, 3, 3)?;
    tick(out, [5, 6, 7], 1, 1, 3, 3)
}

// Tick t of the line with a rule, from those places, with so many values and places lent.
fn tick<W: Write>(
    out: &mut W,
    from: [u32; 3],
    rule: u8,
    t: u64,
    n: usize,
    lent: usize,
) -> io::Result<()> {
    let mut table = [GUARD; 3];
    let mut places = from;
    let a = job::numbers::numbered(array::run::tick_of(
        crate::jobs::line(rule),
        t,
        &[1, 2, 3],
        part(&mut table, n),
        part(&mut places, lent),
    ));
    shown(out, a, &table, &places)
}

// The reply, and what stands in the values and in the places after it.
fn shown<W: Write>(out: &mut W, a: Counted, table: &[u32], places: &[u32]) -> io::Result<()> {
    reply(out, b"reply", a, b" 0 ticks")?;
    unchanged(out, a, table, places)?;
    say(out, b"values")?;
    every(out, 1, table)?;
    say(out, b" places")?;
    every(out, 1, places)?;
    say(out, b"\n")
}

// A tick and a cell past the end too.
fn timetables<W: Write>(out: &mut W) -> io::Result<()> {
    timetable(out, b"points of the line\n", crate::jobs::line(1), 4, 4)?;
    timetable(
        out,
        b"points of the stretched\n",
        crate::jobs::stretched(),
        9,
        6,
    )?;
    timetable(
        out,
        b"points of the slanted, through\n",
        crate::jobs::slanted(0),
        1,
        1,
    )
}

// The line with rule 1 as the 25 bytes of a job file: header, box, stream, H, S. Two bytes are no job.
fn bytes<W: Write>(out: &mut W) -> io::Result<()> {
    say(out, b"line, as bytes\n")?;
    from_bytes(
        out,
        b"\x01\0\x01\x01\x01\0\x10\0\x12\0\x17\0\x19\0\0\0\0\x02\x01\0\x01\0\0\x01\x01",
    )?;
    say(out, b"two bytes\n")?;
    from_bytes(out, b"\x01\0")
}

// The run of a job file.
fn from_bytes<W: Write>(out: &mut W, s: &[u8]) -> io::Result<()> {
    let mut table = [GUARD; 3];
    let mut places = [GUARD; 3];
    let a = job::numbers::numbered(calls::run_of_bytes(s, &[1, 2, 3], &mut table, &mut places));
    shown(out, a, &table, &places)
}
