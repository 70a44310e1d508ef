// Whether a record is acceptable: refusals 3, 6, 7 and 8, each a question of its own.
ghost use Rattle.space.specs.Numbers.{Tells};
ghost use Rattle.space.specs.Vectors.{entries, Sized};
ghost use Rattle.job.specs.Refusals.{First, number_in};
ghost use Rattle.job.specs.Record.{Firsts, streams_of};
ghost use Rattle.job.specs.Limits.{Boxed, Sound, Ruled, Rowed, limits};

use crate::record::{Job, Stream};
use crate::refusal::Refusal;
use space::boxes::Bounds;
use space::vector::Vector;

// The limits of form 1, as in the job's specs/Limits: the sizes of bounds, of the entries of H and S and of those of d, and the number of points.
const BOUND_LIMIT: u64 = 127;

const ROW_LIMIT: u64 = 127;

const STEP_LIMIT: u64 = 15;

const POINT_LIMIT: u64 = 1024;

// The first limit that the record breaks, or none.
pub fn check(j: Job) -> Result<(), Refusal>
    ensures { First (limits j) (number_in result) }
{
    if !crate::shape::is_shaped(j) {
        return Err(Refusal::Counts);
    }
    if !is_boxed(j.bounds) {
        return Err(Refusal::Bounds);
    }
    if !are_sound(j) {
        return Err(Refusal::Streams);
    }
    if !is_rowed(j) {
        return Err(Refusal::Rows);
    }
    Ok(())
}

// 6: no bound is over its limit in size, l ≤ u for each, and there are not too many points.
fn is_boxed(b: Bounds) -> bool
    ensures { Tells (Boxed b) result }
{
    // the low corner is a point of the box exactly if l ≤ u for each
    is_sized(b.low, BOUND_LIMIT)
        && is_sized(b.high, BOUND_LIMIT)
        && space::boxes::contains(b, b.low)
        && space::boxes::count(b) <= POINT_LIMIT
}

// 7: every stream that is used keeps its line.
fn are_sound(j: Job) -> bool
    ensures { Tells (Firsts (Sound j.m) j.m (streams_of j)) result }
{
    let m = j.m;
    (m <= 0 || is_sound(j.s0, m))
        && (m <= 1 || is_sound(j.s1, m))
        && (m <= 2 || is_sound(j.s2, m))
        && (m <= 3 || is_sound(j.s3, m))
}

// 8: no entry of H or of the rows of S is over its limit in size.
fn is_rowed(j: Job) -> bool
    ensures { Tells (Rowed j) result }
{
    is_sized(j.time, ROW_LIMIT)
        && (j.k < 1 || is_sized(j.row0, ROW_LIMIT))
        && (j.k < 2 || is_sized(j.row1, ROW_LIMIT))
}

// Is every entry at most that size?
fn is_sized(v: Vector, most: u64) -> bool
    ensures { Tells (Sized most (entries v)) result }
{
    [v.x0, v.x1, v.x2, v.x3]
        .iter()
        .all(|x| x.unsigned_abs() <= most)
}

// Does the stream keep its line: small entries, pointing forward, gcd 1, a kind, a rule with its sources?
fn is_sound(s: Stream, m: u8) -> bool
    ensures { Tells (Sound m s) result }
{
    is_sized(s.d, STEP_LIMIT)
        && space::vector::is_forward(s.d)
        && space::divisor::gcd_of_entries(s.d) == 1
        && s.kind <= 1
        && is_ruled(s, m)
}

// Rule 0 with sources 0, or rule 1 or 2 with sources below m?
fn is_ruled(s: Stream, m: u8) -> bool
    ensures { Tells (Ruled m s) result }
{
    (s.rule == 0 && s.a == 0 && s.b == 0) || (1 <= s.rule && s.rule <= 2 && s.a < m && s.b < m)
}
