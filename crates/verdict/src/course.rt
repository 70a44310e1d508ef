// Where a job puts a point, and the course that a stream takes: one hop, and how many hops make d.
ghost use Rattle.std.specs.Prelude.{◌≡◌, ◌<◌};
ghost use Rattle.space.specs.Numbers.{difference};
ghost use Rattle.space.specs.Vectors.{entries, Sized};
ghost use Rattle.job.specs.Limits.{Acceptable};
ghost use Rattle.verdict.specs.Courses.{time_and_place, CourseOf};

use job::record::Job;
use space::vector::Vector;

// One hop of a stream, as (w, e), and how many hops make d.
#[derive(Clone, Copy)]
pub struct Course {
    pub unit: Vector,
    pub g: u64,
}

// Hx and Sx, as one vector.
pub fn time_and_place(j: Job, x: Vector) -> Vector
    requires { Acceptable j × Sized difference (entries x) }
    ensures { entries result ≡ time_and_place j (entries x) }
{
    Vector {
        x0: space::vector::dot(j.time, x),
        x1: space::vector::dot(j.row0, x),
        x2: space::vector::dot(j.row1, x),
        x3: 0,
    }
}

// The course of stream s.
pub fn course_of(j: Job, s: u8) -> Course
    requires { Acceptable j × (s < j.m) }
    ensures { CourseOf j s result }
{
    let t = job::record::stream_at(j, s);
    let v = time_and_place(j, t.d);
    let g = space::divisor::gcd(v.x1.unsigned_abs(), v.x2.unsigned_abs());
    let n = g.max(1) as i64;
    Course {
        unit: Vector {
            x0: v.x0 / n,
            x1: v.x1 / n,
            x2: v.x2 / n,
            x3: 0,
        },
        g,
    }
}
