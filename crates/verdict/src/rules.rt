// The rules, each over all streams or all pairs.
ghost use Rattle.std.specs.Prelude.{ℕ, ◌<◌};
ghost use Rattle.space.specs.Numbers.{Tells};
ghost use Rattle.job.specs.Limits.{Acceptable};
ghost use Rattle.verdict.specs.Rules.{Ahead, Even};
ghost use Rattle.verdict.specs.Searches.{FindsNo, FindsStream, FindsPair, FindsCollisionOn, FindsCollision};

use crate::judge::{Collision, Pair};
use job::record::Job;

// The lowest of m streams that breaks a rule, told by a test whether a stream keeps it. (A `for`: through the closure of `find` the search does not read the rule of hops.)
fn lowest_breaking<F: Fn(u8) -> bool>(m: u8, keeps: F) -> Option<u8>
    requires { (s : ℕ) → s < m → F.pre keeps s }
    ensures { FindsNo (λ s b. F.post keeps s b) m result }
{
    for s in 0..m {
        if !keeps(s) {
            return Some(s);
        }
    }
    None
}

// The lowest stream that breaks precedence.
pub fn late(j: Job) -> Option<u8>
    requires { Acceptable j }
    ensures { FindsStream (Ahead j) j.m result }
{
    lowest_breaking(j.m, |s| is_ahead(j, s))
}

// The lowest stream that breaks the hop rule.
pub fn uneven(j: Job) -> Option<u8>
    requires { Acceptable j }
    ensures { FindsStream (Even j) j.m result }
{
    lowest_breaking(j.m, |s| is_even(j, s))
}

// The first pair of points in one cell at one tick.
pub fn shared_cell(j: Job) -> Option<Pair>
    requires { Acceptable j }
    ensures { FindsPair j result }
{
    let y = crate::walk::cell_gap(j)?;
    let p = space::boxes::least_start(j.bounds, y);
    let q = space::vector::plus(p, y);
    Some(Pair { p, q })
}

// The first pair of the lowest stream whose tokens meet.
pub fn first_collision(j: Job) -> Option<Collision>
    requires { Acceptable j }
    ensures { FindsCollision j result }
{
    (0..j.m).find_map(|s| collision_on(j, s))
}

// Is Hd at least 1?
fn is_ahead(j: Job, s: u8) -> bool
    requires { Acceptable j × (s < j.m) }
    ensures { Tells (Ahead j s) result }
{
    1 <= space::vector::dot(j.time, job::record::stream_at(j, s).d)
}

// Does g divide Hd, where Sd is not 0?
fn is_even(j: Job, s: u8) -> bool
    requires { Acceptable j × (s < j.m) }
    ensures { Tells (Even j s) result }
{
    let course = crate::course::course_of(j, s);
    if course.g == 0 {
        return true;
    }
    space::vector::dot(j.time, job::record::stream_at(j, s).d).unsigned_abs() % course.g == 0
}

// The first pair of stream s whose tokens meet.
fn collision_on(j: Job, s: u8) -> Option<Collision>
    requires { Acceptable j × (s < j.m) }
    ensures { FindsCollisionOn j s result }
{
    let c = crate::course::course_of(j, s);
    if c.g == 0 {
        return None;
    }
    let link = crate::walk::link_gap(j, s, c)?;
    let p = space::boxes::least_start(j.bounds, link.gap);
    let q = space::vector::plus(p, link.gap);
    Some(Collision {
        stream: s,
        pair: Pair { p, q },
        hops: link.hops,
    })
}
