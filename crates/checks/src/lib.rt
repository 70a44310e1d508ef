// What a run and a single tick answer, and the checks before them.

#![tactic(auto)]

ghost use Rattle.std.specs.Prelude.{◌≡◌, true, false};
ghost use Rattle.job.specs.Limits.{Acceptable};
ghost use Rattle.job.specs.Refusals.{First, number_of};
ghost use Rattle.checks.specs.Replies.{tick_checks, checks_of, in_numbers, Lacks};
ghost use Rattle.checks.specs.declared.Undone.TheVariants.{Refused};
ghost use Rattle.verdict.specs.declared.judge.Verdict.TheVariants.{Limit};

use job::numbers::{Counted, HasNumber};
use job::record::Job;
use job::refusal::Refusal;
use verdict::judge::{Extent, Verdict};

// 14: 'R over 8,192'.
const ROOM_LIMIT: u64 = 8192;

// What an array is asked to do: a run, all ticks from cleared places, or one tick. (A value and no closure: the promise, `Does`, and the checks say of it what was asked.)
#[derive(Clone, Copy)]
pub enum Work {
    Run,
    Tick(u64),
}

// Why a run or a tick is not done: the verdict's refusal; 13; 14 and 15 with R; 16.
#[derive(Clone, Copy)]
pub enum Undone {
    Refused(Verdict),
    Tables,
    Large(u64),
    Few(u64),
    Late,
}

// The number of refusal, and R for 14 and 15.
impl HasNumber for Undone {
    ghost counted = { in_numbers };

    fn counted(self) -> Counted {
        let (number, count) = match self {
            Undone::Refused(v) => (verdict::numbers::in_numbers(v).number, 0),
            Undone::Tables => (13, 0),
            Undone::Large(room) => (14, room),
            Undone::Few(room) => (15, room),
            Undone::Late => (16, 0),
        };
        Counted { number, count }
    }
}

impl From<Refusal> for Undone {
    ghost from_gives = { λ why undone. undone ≡ Refused (Limit (number_of why)) };

    fn from(why: Refusal) -> Undone {
        Undone::Refused(Verdict::from(why))
    }
}

// The first check from 13 on that does not pass, of tables and places so long, or the tick count.
pub fn lacking(
    j: Job,
    extent: Extent,
    work: Work,
    input: usize,
    values: usize,
    places: usize,
) -> Result<u64, Undone>
    requires { Acceptable j }
    ensures { Lacks (checks_of work j input values places) extent result }
{
    let table = tables::table::size_of(j);
    if input != table || values != table {
        return Err(Undone::Tables);
    }
    if ROOM_LIMIT < extent.room {
        return Err(Undone::Large(extent.room));
    }
    if (places as u64) < extent.room {
        return Err(Undone::Few(extent.room));
    }
    if is_late(work, extent.ticks) {
        return Err(Undone::Late);
    }
    Ok(extent.ticks)
}

// Is it a single tick that is not below the tick count?
fn is_late(work: Work, ticks: u64) -> bool
    ensures late { result ≡ true → First (tick_checks work ticks) 16 }
    ensures due { result ≡ false → First (tick_checks work ticks) 0 }
{
    match work {
        Work::Run => false,
        Work::Tick(t) => ticks <= t,
    }
}
