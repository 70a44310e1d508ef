// The verdict on a job: accepted with its extent, or the first broken rule with its stream and its first pair.
ghost use Rattle.std.specs.Prelude.{◌≡◌};
ghost use Rattle.job.specs.Refusals.{number_of};
ghost use Rattle.job.specs.Limits.{Acceptable};
ghost use Rattle.verdict.specs.Verdicts.{Says};
ghost use Rattle.verdict.specs.declared.judge.Verdict.TheVariants.{Limit};

use job::record::Job;
use job::refusal::Refusal;
use space::vector::Vector;

// How many cells and ticks an accepted array has, and how many register places.
#[derive(Clone, Copy)]
pub struct Extent {
    pub cells: u64,
    pub ticks: u64,
    pub room: u64,
}

// Of an array that there is not.
pub const NO_EXTENT: Extent = Extent {
    cells: 0,
    ticks: 0,
    room: 0,
};

// Two points.
#[derive(Clone, Copy)]
pub struct Pair {
    pub p: Vector,
    pub q: Vector,
}

// Two tokens of a stream that meet: their points, and how many hops they are apart.
#[derive(Clone, Copy)]
pub struct Collision {
    pub stream: u8,
    pub pair: Pair,
    pub hops: i64,
}

#[derive(Clone, Copy)]
pub enum Verdict {
    Accepted(Extent),
    // A number: document 01 names these variants, and in_numbers and the reply's line answer for every number.
    Limit(u8),
    Precedence(u8),
    Hop(u8),
    Cell(Pair),
    Link(Collision),
}

impl From<Refusal> for Verdict {
    ghost from_gives = { λ why v. v ≡ Limit (number_of why) };

    fn from(why: Refusal) -> Verdict {
        Verdict::Limit(u8::from(why))
    }
}

// The verdict on a record.
pub fn verdict_of(j: Job) -> Verdict
    ensures { Says j result }
{
    match job::limits::check(j) {
        Ok(()) => judged(j),
        Err(why) => Verdict::from(why),
    }
}

// The verdict on a record that keeps the limits: its first broken rule, or accepted.
pub fn judged(j: Job) -> Verdict
    requires { Acceptable j }
    ensures { Says j result }
{
    if let Some(s) = crate::rules::late(j) {
        return Verdict::Precedence(s);
    }
    if let Some(s) = crate::rules::uneven(j) {
        return Verdict::Hop(s);
    }
    if let Some(pair) = crate::rules::shared_cell(j) {
        return Verdict::Cell(pair);
    }
    if let Some(collision) = crate::rules::first_collision(j) {
        return Verdict::Link(collision);
    }
    Verdict::Accepted(crate::extents::extent_of(j))
}
