// The library for C, C++, Rust and Python: each function takes job bytes and answers in numbers. The functions, and the layout of what they answer, are those of include/najluthed.h.

#![tactic(auto)]

ghost use Rattle.std.specs.Prelude.{◌≡◌, ◌≤◌, length};
ghost use Rattle.calls.specs.Bytes.{WritesOf};
ghost use Rattle.najluthed.specs.Calls.{done, point, AnswersVerdict, AnswersSizes, AnswersRoom, AnswersWork, AnswersLoop, AnswersPoint};

use array::lookup::Looked;
use checks::Work;
use job::numbers::{Counted, numbered};

// The number of refusal, 0 for accepted; stream and hops are 0 where the table lists none. (Numbers, here and below, since that is what C gets.)
#[repr(C)]
#[derive(Clone, Copy)]
pub struct Judged {
    pub number: u32,
    pub stream: u32,
    pub hops: i64,
}

// The number of refusal, 0 for none, and a count.
#[repr(C)]
#[derive(Clone, Copy)]
pub struct Done {
    pub number: u32,
    pub count: u64,
}

// The number of refusal, 0 for none; n, m and the points of a job within the limits; cells, ticks and room of an accepted array. What there is not is 0.
#[repr(C)]
#[derive(Clone, Copy)]
pub struct Sizes {
    pub number: u32,
    pub dimensions: u32,
    pub streams: u32,
    pub points: u64,
    pub cells: u64,
    pub ticks: u64,
    pub room: u64,
}

// The number of refusal, 0 for none; whether there is a point, 1 or 0; and its coordinates, 0 where there is none. (A flag and a number, since C has no Option; four coordinates by field, C's layout.)
#[repr(C)]
#[derive(Clone, Copy)]
pub struct PointReply {
    pub number: u32,
    pub found: u32,
    pub x0: i64,
    pub x1: i64,
    pub x2: i64,
    pub x3: i64,
}

// The verdict.
#[unsafe(no_mangle)]
pub extern "C" fn najluthed_verdict(job: &[u8]) -> Judged
    ensures { AnswersVerdict job.now result }
{
    let told = verdict::numbers::in_numbers(calls::verdict_of_bytes(job));
    let hops = told.hops;
    Judged {
        number: u32::from(told.number),
        stream: u32::from(told.stream),
        hops,
    }
}

// What a caller must know to lend tables.
#[unsafe(no_mangle)]
pub extern "C" fn najluthed_sizes(job: &[u8]) -> Sizes
    ensures { AnswersSizes job.now result }
{
    let measures = calls::measures_of_bytes(job);
    let extent = measures.extent;
    Sizes {
        number: u32::from(measures.number),
        dimensions: u32::from(measures.dimensions),
        streams: u32::from(measures.streams),
        points: measures.points,
        cells: extent.cells,
        ticks: extent.ticks,
        room: extent.room,
    }
}

// The printed line, written to the front of a buffer that the longest line fits into: its length.
#[unsafe(no_mangle)]
pub extern "C" fn najluthed_line(job: &[u8], out: &mut [u8]) -> usize
    ensures writes { WritesOf job.now out.old result out.new }
    ensures inside { result ≤ length out.new }
{
    calls::line_of_bytes(out, job)
}

// The room count, R.
#[unsafe(no_mangle)]
pub extern "C" fn najluthed_room(job: &[u8]) -> Done
    ensures { AnswersRoom job.now result }
{
    Done::from(numbered(calls::room_of_bytes(job)))
}

// A run: the tick count, or R for 14 and 15.
#[unsafe(no_mangle)]
pub extern "C" fn najluthed_run(
    job: &[u8],
    input: &[u32],
    values: &mut [u32],
    places: &mut [u32],
) -> Done
    ensures { AnswersWork Work.Run job.now input.now values.old places.old values.new places.new result }
{
    Done::from(numbered(calls::run_of_bytes(job, input, values, places)))
}

// A single tick, from the lent places as they are: the tick count, or R for 14 and 15.
#[unsafe(no_mangle)]
pub extern "C" fn najluthed_tick(
    job: &[u8],
    tick: u64,
    input: &[u32],
    values: &mut [u32],
    places: &mut [u32],
) -> Done
    ensures { AnswersWork (Work.Tick tick) job.now input.now values.old places.old values.new places.new result }
{
    Done::from(numbered(calls::tick_of_bytes(job, tick, input, values, places)))
}

// The loop: the point count.
#[unsafe(no_mangle)]
pub extern "C" fn najluthed_loop(job: &[u8], input: &[u32], values: &mut [u32]) -> Done
    ensures { AnswersLoop job.now input.now values.old values.new result }
{
    Done::from(numbered(calls::loop_of_bytes(job, input, values)))
}

// The point worked in a tick at a cell.
#[unsafe(no_mangle)]
pub extern "C" fn najluthed_point(job: &[u8], tick: u64, cell: u64) -> PointReply
    ensures { AnswersPoint job.now tick cell result }
{
    PointReply::from(array::lookup::in_numbers(calls::point_at_bytes(job, tick, cell)))
}

// A number and a count, for C.
impl From<Counted> for Done {
    ghost from_gives = { λ c d. d ≡ done c };

    fn from(c: Counted) -> Done {
        Done {
            number: u32::from(c.number),
            count: c.count,
        }
    }
}

// What a look-up found, for C.
impl From<Looked> for PointReply {
    ghost from_gives = { λ l p. p ≡ point l };

    fn from(l: Looked) -> PointReply {
        let p = l.point;
        PointReply {
            number: u32::from(l.number),
            found: u32::from(l.found),
            x0: p.x0,
            x1: p.x1,
            x2: p.x2,
            x3: p.x3,
        }
    }
}
