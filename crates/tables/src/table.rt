// The tables of a job: where an entry stands, the point before one, and the work at one point.
ghost use Rattle.std.specs.Prelude.{◌≡◌, ℕ, ◌+◌, ◌*◌, ◌<◌, ◌≤◌};
ghost use Rattle.space.specs.Vectors.{entries};
ghost use Rattle.space.specs.Boxes.{In, point_of};
ghost use Rattle.job.specs.Limits.{Acceptable};
ghost use Rattle.job.specs.Record.{box, points as points_of};
ghost use Rattle.tables.specs.Tables.{previous};
ghost use Rattle.tables.specs.Columns.{Ready, Column};

use job::record::Job;
use space::vector::Vector;

// Where a table of so many points holds the entry for stream s and the point at place k.
pub fn place_in_table(s: u8, points: u64, k: u64) -> usize
    requires { (s ≤ 4) × (points ≤ 4096) × (k ≤ 4096) }
    ensures few { result ≤ 20480 }
    ensures is { result ≡ s * points + k }
{
    (u64::from(s) * points + k) as usize
}

// How many values a table of the job has.
pub fn size_of(j: Job) -> usize
    requires { Acceptable j }
    ensures few { result ≤ 16384 }
    ensures is { result ≡ j.m * points_of j }
{
    place_in_table(j.m, space::boxes::count(j.bounds), 0)
}

// The place of the point before p, a point of the box, on stream s.
pub fn previous_at(j: Job, s: u8, p: Vector) -> Option<u64>
    requires { Acceptable j × (s < j.m) × In (box j) (entries p) }
    ensures { (k : ℕ) → entries p ≡ point_of (box j) k → result ≡ previous j s k }
{
    let stream = job::record::stream_at(j, s);
    space::boxes::back(j.bounds, stream.d, p)
}

// The work at the point at place k, from what came in there. (`Ready`, a table as long as the job asks, is a clause: a fact of two values.)
pub fn put_column(j: Job, values: &mut [u32], points: u64, k: u64, got: [u32; 4])
    requires { Ready j values.old points × (k < points) }
    ensures { Column j k got values.old j.m values.new }
{
    for s in 0..j.m {
        let t = job::record::stream_at(j, s);
        values[place_in_table(s, points, k)] = cell::new_value(t, usize::from(s), got);
    }
}
