// Cells, ticks and room of a job's array.
ghost use Rattle.std.specs.Prelude.{◌≡◌};
ghost use Rattle.job.specs.Limits.{Acceptable};
ghost use Rattle.verdict.specs.Mapping.{delays};
ghost use Rattle.verdict.specs.Extents.{ExtentOf};
ghost use Rattle.verdict.specs.Rules.{Ahead, All};

use crate::judge::Extent;
use job::record::Job;

// The sum of the w. (A `for`: each step has to fit, and the bound of it is that of so many delays.)
fn all_delays(j: Job) -> u64
    requires { Acceptable j × All Ahead j }
    ensures { result ≡ delays j j.m }
{
    let mut sum = 0;
    for s in 0..j.m {
        sum += crate::course::course_of(j, s).unit.x0.unsigned_abs();
    }
    sum
}

// The extent of a job that keeps precedence.
pub fn extent_of(j: Job) -> Extent
    requires { Acceptable j × All Ahead j }
    ensures { ExtentOf j result }
{
    let rows = space::boxes::reach_of(j.row0, j.bounds);
    let columns = space::boxes::reach_of(j.row1, j.bounds);
    let clock = space::boxes::reach_of(j.time, j.bounds);
    let cells = rows.count * columns.count;
    Extent {
        cells,
        ticks: clock.count,
        room: cells * all_delays(j),
    }
}
