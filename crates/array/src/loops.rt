// The plain loop nest of a job: points in box order.
ghost use Rattle.std.specs.Prelude.{◌≡◌, ℕ, ◌+◌, ◌<◌, get_or};
ghost use Rattle.space.specs.Vectors.{entries};
ghost use Rattle.space.specs.Boxes.{point_of};
ghost use Rattle.job.specs.Refusals.{number_of as refusal_number};
ghost use Rattle.job.specs.Limits.{Acceptable};
ghost use Rattle.job.specs.Record.{box};
ghost use Rattle.tables.specs.Columns.{Ready};
ghost use Rattle.array.specs.Loops.{incoming, Looped, in_numbers, Loops};
ghost use Rattle.array.specs.declared.loops.Unlooped.TheVariants.{Limit};

use job::numbers::{Counted, HasNumber};
use job::record::Job;
use job::refusal::Refusal;
use space::vector::Vector;

// Why the loop is not made: one of the limits, or a table that is not m × points long.
#[derive(Clone, Copy)]
pub enum Unlooped {
    // A number of any size, since `counted` answers for each.
    Limit(u8),
    Tables,
}

// The number of refusal; no count comes with it.
impl HasNumber for Unlooped {
    ghost counted = { in_numbers };

    fn counted(self) -> Counted {
        let number = match self {
            Unlooped::Limit(number) => number,
            Unlooped::Tables => 13,
        };
        Counted { number, count: 0 }
    }
}

impl From<Refusal> for Unlooped {
    ghost from_gives = { λ why unlooped. unlooped ≡ Limit (refusal_number why) };

    fn from(why: Refusal) -> Unlooped {
        Unlooped::Limit(u8::from(why))
    }
}

// The loop over the value table, with the input for the points that have no point before them; it answers the point count.
pub fn loop_of(j: Job, input: &[u32], values: &mut [u32]) -> Result<u64, Unlooped>
    ensures { Loops j input.now values.old values.new result }
{
    job::limits::check(j)?;
    loop_within(j, input, values)
}

// The same of a job that is within the limits.
pub fn loop_within(j: Job, input: &[u32], values: &mut [u32]) -> Result<u64, Unlooped>
    requires { Acceptable j }
    ensures { Loops j input.now values.old values.new result }
{
    let size = tables::table::size_of(j);
    if input.len() != size || values.len() != size {
        return Err(Unlooped::Tables);
    }
    let points = space::boxes::count(j.bounds);
    fill(j, input, values, points);
    Ok(points)
}

// The incoming value of stream s at p, the point at place k. (The tables one by one: see `one_tick`.)
fn incoming_at(j: Job, input: &[u32], values: &[u32], points: u64, p: Vector, k: u64, s: u8) -> u32
    requires { Ready j input.now points × Ready j values.now points × (k < points) × (entries p ≡ point_of (box j) k) × (s < j.m) }
    ensures { result ≡ incoming j input.now values.now s k }
{
    match tables::table::previous_at(j, s, p) {
        Some(q) => values[tables::table::place_in_table(s, points, q)],
        None => input[tables::table::place_in_table(s, points, k)],
    }
}

// The incoming values of all streams at p, the point at place k.
fn incoming_all(j: Job, input: &[u32], values: &[u32], points: u64, p: Vector, k: u64) -> [u32; 4]
    requires { Ready j input.now points × Ready j values.now points × (k < points) × (entries p ≡ point_of (box j) k) }
    ensures { (s : ℕ) → s < j.m → get_or result s 0 ≡ incoming j input.now values.now s k }
{
    crate::gather::gathered(j.m, |s| incoming_at(j, input, values, points, p, k, s))
}

// The work at every point, in box order.
fn fill(j: Job, input: &[u32], values: &mut [u32], points: u64)
    requires { Ready j input.now points × Ready j values.old points }
    ensures { Looped j input.now values.new }
{
    let b = j.bounds;
    let mut p = space::boxes::point(b, 0);
    for k in 0..points {
        let got = incoming_all(j, input, values, points, p, k);
        tables::table::put_column(j, values, points, k, got);
        p = space::boxes::next(b, p);
    }
}
