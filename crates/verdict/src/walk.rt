// The walk over the differences of the box: which of them bring two points into one cell, or two tokens together.
ghost use Rattle.std.specs.Prelude.{◌≡◌, ◌+◌, ◌<◌};
ghost use Rattle.space.specs.Numbers.{Tells, difference, limit};
ghost use Rattle.space.specs.Vectors.{entries, Sized, NonZero};
ghost use Rattle.space.specs.Boxes.{Within, In, box_of, place_of, PointAt};
ghost use Rattle.job.specs.Record.{zero_vector, box, stream};
ghost use Rattle.job.specs.Limits.{Acceptable};
ghost use Rattle.verdict.specs.Mapping.{Stationary};
ghost use Rattle.verdict.specs.Collisions.{IsCollision};
ghost use Rattle.verdict.specs.Courses.{CourseOf};
ghost use Rattle.verdict.specs.Searches.{Still, FindsHops, FindsGap, FindsLink, FindsAnswer};
ghost use Rattle.space.specs.declared.vector.Vector.{Vector};

use crate::course::Course;
use job::record::{Job, Stream};
use space::boxes::Bounds;
use space::vector::Vector;

// A difference of two points whose tokens meet, and how many hops they are apart.
#[derive(Clone, Copy)]
pub struct Link {
    pub gap: Vector,
    pub hops: i64,
}

// Do two points y apart share cell and tick?
fn is_still(j: Job, y: Vector) -> bool
    requires { Acceptable j × Sized difference (entries y) }
    ensures { Tells (Still j (entries y)) result }
{
    let v = crate::course::time_and_place(j, y);
    v.x0 == 0 && v.x1 == 0 && v.x2 == 0
}

// Two tokens of stream s, which is t, whose points are y apart: how many hops apart they meet, if they do.
fn collision_hops(j: Job, s: u8, t: Stream, c: Course, y: Vector) -> Option<i64>
    requires { Acceptable j × (s < j.m) × (Stationary j s → ⊥) × CourseOf j s c × Sized difference (entries y) × (t ≡ stream j s) }
    ensures { FindsHops j s (entries y) result }
{
    let f = space::multiple::multiple_of(crate::course::time_and_place(j, y), c.unit)?;
    is_collision(t.kind, t.d, c.g, y, f).then_some(f)
}

// Do two tokens y apart, f hops, collide? (The kind is a number, as the record holds it and the definition takes it.)
fn is_collision(kind: u8, d: Vector, g: u64, y: Vector, f: i64) -> bool
    requires { Sized limit (entries y) × Sized limit (entries d) × NonZero (entries d) }
    ensures { Tells (IsCollision kind (entries d) g (entries y) f) result }
{
    if kind == 0 {
        return space::multiple::multiple_of(y, d).is_none();
    }
    let size = f.unsigned_abs();
    1 <= size && size < g
}

// The place of the first difference that points forward, among the differences b: just past 0.
fn first_place(b: Bounds) -> u64
    requires { Within difference b × In (box_of b) (entries zero_vector) }
    ensures { result ≡ place_of (box_of b) (entries zero_vector) + 1 }
{
    space::boxes::place(b, space::vector::ZERO) + 1
}

// That difference itself, where there is one.
fn first_gap(b: Bounds) -> Vector
    requires { Within difference b × In (box_of b) (entries zero_vector) }
    ensures { PointAt (box_of b) (place_of (box_of b) (entries zero_vector) + 1) (entries result) }
{
    space::boxes::next(b, space::vector::ZERO)
}

// What a test answers at the first difference of two points of the box, pointing forward, at which it answers.
fn first_difference<T, F: Fn(Vector) -> Option<T>>(j: Job, meets: F) -> Option<T>
    requires accepted { Acceptable j }
    requires callable { (y : Vector) → Sized difference (entries y) → F.pre meets y }
    ensures { FindsAnswer (λ y r. F.post meets y r) (box j) result }
{
    let b = space::boxes::differences(j.bounds);
    let mut y = first_gap(b);
    for _place in first_place(b)..space::boxes::count(b) {
        if let Some(found) = meets(y) {
            return Some(found);
        }
        y = space::boxes::next(b, y);
    }
    None
}

// The first difference at which two points of the box share cell and tick.
pub fn cell_gap(j: Job) -> Option<Vector>
    requires { Acceptable j }
    ensures { FindsGap (Still j) (box j) result }
{
    first_difference(j, |y| is_still(j, y).then_some(y))
}

// The first difference at which two tokens of the stream meet, and the hops.
pub fn link_gap(j: Job, s: u8, c: Course) -> Option<Link>
    requires { Acceptable j × (s < j.m) × (Stationary j s → ⊥) × CourseOf j s c }
    ensures { FindsLink j s result }
{
    let t = job::record::stream_at(j, s);
    first_difference(
        j,
        |y| collision_hops(j, s, t, c, y).map(|hops| Link { gap: y, hops }),
    )
}
