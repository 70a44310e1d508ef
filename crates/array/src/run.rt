// The array: a run of all ticks, and a single tick.
ghost use Rattle.std.specs.Prelude.{◌≡◌, ◌≤◌, length};
ghost use Rattle.verdict.specs.Verdicts.{Says};
ghost use Rattle.array.specs.Runs.{Ran, cleared, Does, Runs, SingleTick};
ghost use Rattle.array.specs.Steps.{Supplied};

use checks::{Undone, Work};
use frame::Frame;
use job::record::Job;
use verdict::judge::Verdict;

// The run of a record: the first R places cleared, then every tick in order. (The document has run and tick as two calls; both are `work_out`.)
pub fn run_of(j: Job, input: &[u32], values: &mut [u32], places: &mut [u32]) -> Result<u64, Undone>
    ensures { Runs j input.now values.old places.old values.new places.new result }
{
    work_out(
        j,
        verdict::judge::verdict_of(j),
        Work::Run,
        input,
        values,
        places,
    )
}

// One tick of a record, from the lent places as they are.
pub fn tick_of(
    j: Job,
    t: u64,
    input: &[u32],
    values: &mut [u32],
    places: &mut [u32],
) -> Result<u64, Undone>
    ensures { SingleTick t j input.now values.old places.old values.new places.new result }
{
    work_out(
        j,
        verdict::judge::verdict_of(j),
        Work::Tick(t),
        input,
        values,
        places,
    )
}

// A run or a tick of a job with its verdict. (Never a part of its caller: the timetable is 8 KiB of stack, which bytes that are no job do not come to.)
#[inline(never)]
pub fn work_out(
    j: Job,
    v: Verdict,
    work: Work,
    input: &[u32],
    values: &mut [u32],
    places: &mut [u32],
) -> Result<u64, Undone>
    requires { Says j v }
    ensures { Does work j input.now values.old places.old values.new places.new result }
{
    let Verdict::Accepted(extent) = v else {
        return Err(Undone::Refused(v));
    };
    let ticks = checks::lacking(j, extent, work, input.len(), values.len(), places.len())?;
    let f = frame::frame_of(j);
    let mut timetable = [0u64; frame::TIMETABLE];
    frame::fill_timetable(f, &mut timetable);
    let times = &timetable[..];
    // A value and no closure: see `Work`.
    match work {
        Work::Run => {
            clear(places, extent.room as usize);
            all_ticks(f, times, ticks, input, values, places);
        }
        Work::Tick(t) => crate::tick::one_tick(f, times, t, input, values, places),
    }
    Ok(ticks)
}

// The first n places are cleared.
fn clear(places: &mut [u32], n: usize)
    requires { n ≤ length places.old }
    ensures { places.new ≡ cleared n places.old }
{
    places[..n].fill(0);
}

// Every tick in order.
fn all_ticks(
    f: Frame,
    timetable: &[u64],
    ticks: u64,
    input: &[u32],
    values: &mut [u32],
    places: &mut [u32],
)
    requires { Supplied f input.now values.old places.old timetable.now }
    ensures { Ran f.job input.now places.old values.old ticks places.new values.new }
{
    for t in 0..ticks {
        crate::tick::one_tick(f, timetable, t, input, values, places);
    }
}
