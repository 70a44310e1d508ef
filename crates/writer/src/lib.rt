// The writer: a record and a lent buffer to the total, or refusal 3, 6, 7, 8 or 17.

#![tactic(auto)]

ghost use Rattle.std.specs.Prelude.{◌≡◌};
ghost use Rattle.job.specs.Refusals.{number_of};
ghost use Rattle.writer.specs.Writing.{Writes, in_numbers, counted_of};
ghost use Rattle.writer.specs.declared.Unwritten.TheVariants.{Refused};

use job::numbers::{Counted, HasNumber};
use job::record::Job;
use job::refusal::Refusal;

// Why no file is written: a limit, by its number of any size, since `counted` answers for every one; or 17 with the total that the buffer is shorter than.
#[derive(Clone, Copy, PartialEq, Eq)]
pub enum Unwritten {
    Refused(u8),
    Short(usize),
}

impl From<Refusal> for Unwritten {
    ghost from_gives = { λ why w. w ≡ Refused (number_of why) };

    fn from(why: Refusal) -> Unwritten {
        Unwritten::Refused(u8::from(why))
    }
}

impl HasNumber for Unwritten {
    ghost counted = { in_numbers };

    fn counted(self) -> Counted {
        match self {
            Unwritten::Refused(number) => Counted { number, count: 0 },
            Unwritten::Short(total) => Counted {
                number: 17,
                count: total as u64,
            },
        }
    }
}

// The same in numbers: the number of refusal, 0 for a written file, and the total, 0 where the refusal returns nothing. (A call of `numbered` that stays, since it is public.)
pub fn counted(w: Result<usize, Unwritten>) -> Counted
    ensures { result ≡ counted_of w }
{
    job::numbers::numbered(w.map(|total| total as u64))
}

// Writes the job's file over the front of the buffer; a refusal leaves the buffer as it was.
pub fn write(buf: &mut [u8], j: Job) -> Result<usize, Unwritten>
    ensures { Writes j buf.old buf.new result }
{
    job::limits::check(j)?;
    let total = layout::total_of(usize::from(j.n), usize::from(j.k), usize::from(j.m));
    if buf.len() < total {
        return Err(Unwritten::Short(total));
    }
    Ok(file::put_job(buf, j))
}
