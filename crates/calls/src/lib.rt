// The functions on job bytes: each reads the job and answers the reader's refusal, or what is answered for the job that the bytes are. What the reader hands on is within the limits, so they are not asked a second time.

#![tactic(auto)]

ghost use Rattle.std.specs.Prelude.{◌≡◌, ◌≤◌, length};
ghost use Rattle.job.specs.Limits.{Acceptable};
ghost use Rattle.calls.specs.Bytes.{SaysOf, CountsOf, no_measures, MeasuresIn, MeasuresOf, DoesOf, RunsOf, SingleTickOf, LoopsOf, RowOf, LooksOf, WritesOf};

use array::loops::Unlooped;
use checks::{Undone, Work};
use job::record::Job;
use space::vector::Vector;
use verdict::judge::{Extent, NO_EXTENT, Verdict};

// What a caller must know to lend tables: the number of refusal, 0 for none; n, m and the points of a job that is within the limits; the extent of an accepted array. What there is not is 0. (Numbers, since that is what C gets.)
#[derive(Clone, Copy)]
pub struct Measures {
    pub number: u8,
    pub dimensions: u8,
    pub streams: u8,
    pub points: u64,
    pub extent: Extent,
}

// The verdict.
pub fn verdict_of_bytes(s: &[u8]) -> Verdict
    ensures { SaysOf s.now result }
{
    match reader::reading::read(s) {
        Ok(j) => verdict::judge::judged(j),
        Err(why) => Verdict::from(why),
    }
}

// The room count.
pub fn room_of_bytes(s: &[u8]) -> Result<u64, Verdict>
    ensures { CountsOf s.now result }
{
    verdict::room::room_in(verdict_of_bytes(s))
}

// The measures.
pub fn measures_of_bytes(s: &[u8]) -> Measures
    ensures { MeasuresOf s.now result }
{
    match reader::reading::read(s) {
        Ok(j) => measured(j),
        Err(why) => refused(u8::from(why)),
    }
}

// The measures of a job that is within the limits.
fn measured(j: Job) -> Measures
    requires { Acceptable j }
    ensures { MeasuresIn j result }
{
    let told = verdict::numbers::in_numbers(verdict::judge::judged(j));
    let extent = told.extent;
    Measures {
        number: told.number,
        dimensions: j.n,
        streams: j.m,
        points: space::boxes::count(j.bounds),
        extent,
    }
}

// The measures of bytes that are refused, by their number, as C gets it: there are none.
fn refused(number: u8) -> Measures
    ensures { result ≡ no_measures number }
{
    Measures {
        number,
        dimensions: 0,
        streams: 0,
        points: 0,
        extent: NO_EXTENT,
    }
}

// The run.
pub fn run_of_bytes(
    s: &[u8],
    input: &[u32],
    values: &mut [u32],
    places: &mut [u32],
) -> Result<u64, Undone>
    ensures { RunsOf s.now input.now values.old places.old values.new places.new result }
{
    work_of_bytes(s, Work::Run, input, values, places)
}

// One tick, from the lent places as they are.
pub fn tick_of_bytes(
    s: &[u8],
    t: u64,
    input: &[u32],
    values: &mut [u32],
    places: &mut [u32],
) -> Result<u64, Undone>
    ensures { SingleTickOf t s.now input.now values.old places.old values.new places.new result }
{
    work_of_bytes(s, Work::Tick(t), input, values, places)
}

// A run or a tick.
fn work_of_bytes(
    s: &[u8],
    work: Work,
    input: &[u32],
    values: &mut [u32],
    places: &mut [u32],
) -> Result<u64, Undone>
    ensures { DoesOf work s.now input.now values.old places.old values.new places.new result }
{
    let j = reader::reading::read(s)?;
    array::run::work_out(j, verdict::judge::judged(j), work, input, values, places)
}

// The loop.
pub fn loop_of_bytes(s: &[u8], input: &[u32], values: &mut [u32]) -> Result<u64, Unlooped>
    ensures { LoopsOf s.now input.now values.old values.new result }
{
    array::loops::loop_within(reader::reading::read(s)?, input, values)
}

// The row of stream i of a table.
pub fn row_of_bytes<'a, 'b>(s: &'b [u8], table: &'a [u32], i: u8) -> &'a [u32]
    ensures { RowOf s.now table.now i result.now }
{
    match reader::reading::read(s) {
        Ok(j) => tables::rows::row_within(j, table, i),
        Err(_) => &table[..0],
    }
}

// The point worked in tick t at cell x.
pub fn point_at_bytes(s: &[u8], t: u64, x: u64) -> Result<Option<Vector>, Verdict>
    ensures { LooksOf s.now t x result }
{
    let j = reader::reading::read(s)?;
    array::lookup::point_judged(j, verdict::judge::judged(j), t, x)
}

// The printed line, written to the front of a buffer; its length.
pub fn line_of_bytes(out: &mut [u8], s: &[u8]) -> usize
    ensures writes { WritesOf s.now out.old result out.new }
    ensures inside { result ≤ length out.new }
{
    match reader::reading::read(s) {
        Ok(j) => line::write::write_line(out, j.n, verdict::judge::judged(j)),
        Err(why) => line::write::write_line(out, 0, Verdict::from(why)),
    }
}
