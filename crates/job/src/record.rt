// The job as a record: its streams and rows by number.
ghost use Rattle.std.specs.Prelude.{◌≡◌, ◌<◌, get_or};
ghost use Rattle.job.specs.Record.{streams_of, rows_of, no_stream, zero_vector};

use space::boxes::Bounds;
use space::vector::Vector;

// A stream: its vector d, its kind, its rule and the rule's two sources. (Kind and rule are numbers: a record may hold kind 2 and rule 3, so that refusal 7 can be the reply.)
#[derive(Clone, Copy)]
pub struct Stream {
    pub d: Vector,
    pub kind: u8,
    pub rule: u8,
    pub a: u8,
    pub b: u8,
}

// A job: the counts n, k, m, the box, four streams, the time row and two place rows, zero in every unused place. Entries are wider than a file's, so that one beyond the limits can be held and refused. (Four streams with m beside: a refusal of its own, 3, is that an unused place is not 0.)
// That a job is within the limits is a clause, `Acceptable`, and no ghost field of a type: such a field has to be a proposition, and this fact goes by cases, so that the check refuses it. That a stream's number is below m is one too: a type of such numbers would not know the job.
#[derive(Clone, Copy)]
pub struct Job {
    pub n: u8,
    pub k: u8,
    pub m: u8,
    pub bounds: Bounds,
    pub s0: Stream,
    pub s1: Stream,
    pub s2: Stream,
    pub s3: Stream,
    pub time: Vector,
    pub row0: Vector,
    pub row1: Vector,
}

// The stream with number s.
pub fn stream_at(j: Job, s: u8) -> Stream
    requires { s < 4 }
    ensures { result ≡ get_or (streams_of j) s no_stream }
{
    match s {
        0 => j.s0,
        1 => j.s1,
        2 => j.s2,
        _ => j.s3,
    }
}

// The time row for 0, the place rows for 1 and 2.
pub fn row_at(j: Job, i: u8) -> Vector
    requires { i < 3 }
    ensures { result ≡ get_or (rows_of j) i zero_vector }
{
    match i {
        0 => j.time,
        1 => j.row0,
        _ => j.row1,
    }
}
