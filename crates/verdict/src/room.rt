// The room count.
ghost use Rattle.std.specs.Prelude.{◌≡◌};
ghost use Rattle.verdict.specs.Verdicts.{Says};
ghost use Rattle.verdict.specs.Rooms.{Counts, room_of, refused};

use crate::judge::Verdict;
use job::numbers::{Counted, HasNumber};
use job::record::Job;

// The room count of a record: how many register places the accepted array has, or the refusal.
pub fn room_of(j: Job) -> Result<u64, Verdict>
    ensures { Counts (Says j) result }
{
    room_in(crate::judge::verdict_of(j))
}

// The room count in a verdict.
pub fn room_in(v: Verdict) -> Result<u64, Verdict>
    ensures { result ≡ room_of v }
{
    match v {
        Verdict::Accepted(extent) => Ok(extent.room),
        refused => Err(refused),
    }
}

// The number of a refusal; no count comes with it.
impl HasNumber for Verdict {
    ghost counted = { refused };

    fn counted(self) -> Counted {
        Counted {
            number: crate::numbers::in_numbers(self).number,
            count: 0,
        }
    }
}
