// The jobs that are run: those of the paper's list that are accepted, matrix products, and jobs to be refused.
use job::record::{Job, Stream};
use space::boxes::Bounds;
use space::vector::Vector;

// A vector of three entries.
pub fn vector(x0: i64, x1: i64, x2: i64) -> Vector {
    Vector { x0, x1, x2, x3: 0 }
}

// A through stream with a rule and its sources. (A number, here and below, since rule 3 is to be refused.)
fn stream(d: Vector, rule: u8, a: u8, b: u8) -> Stream {
    Stream {
        d,
        kind: 0,
        rule,
        a,
        b,
    }
}

// A job of one stream and one place row, its box from 0 on.
fn single(n: u8, high: Vector, s0: Stream, time: Vector, row0: Vector) -> Job {
    let zeros = vector(0, 0, 0);
    let none = stream(zeros, 0, 0, 0);
    Job {
        n,
        k: 1,
        m: 1,
        bounds: Bounds { low: zeros, high },
        s0,
        s1: none,
        s2: none,
        s3: none,
        time,
        row0,
        row1: zeros,
    }
}

// Box 0..2, d (1), H and S (1), a rule with the sources 0 and 0.
pub fn line(rule: u8) -> Job {
    let one = vector(1, 0, 0);
    single(1, vector(2, 0, 0), stream(one, rule, 0, 0), one, one)
}

// Box 0..2 cubed, d (0,1,0), (1,0,0) and (0,0,1), H (1,1,1). Stream 2 has the rule, with the source 0 and the source b; the place rows say which streams move.
pub fn gathering(rule: u8, b: u8, row0: Vector, row1: Vector) -> Job {
    let first = stream(vector(0, 1, 0), 0, 0, 0);
    let mut j = single(3, vector(2, 2, 2), first, vector(1, 1, 1), row0);
    j.k = 2;
    j.m = 3;
    j.s1 = stream(vector(1, 0, 0), 0, 0, 0);
    j.s2 = stream(vector(0, 0, 1), rule, 0, b);
    j.row1 = row1;
    j
}

// That box with three streams of rule 0, S (1,0,0) and (0,1,0).
pub fn cube() -> Job {
    gathering(0, 0, vector(1, 0, 0), vector(0, 1, 0))
}

// Box 0..3 by 0..2, three streams.
pub fn oblong() -> Job {
    let first = stream(vector(1, 0, 0), 0, 0, 0);
    let mut j = single(2, vector(3, 2, 0), first, vector(1, 1, 0), vector(0, 1, 0));
    j.m = 3;
    j.s1 = stream(vector(0, 1, 0), 0, 0, 0);
    j.s2 = stream(vector(1, 1, 0), 0, 0, 0);
    j
}

// Box -1..2 by -2..0 with those vectors, H (6,2), S (0,-2), rules 1, 2 and 1: stream 0 stays with a delay of 6, the others make two hops back, with 1 and 4 ticks per hop.
pub fn woven() -> Job {
    let mut j = oblong();
    let around = Bounds {
        low: vector(-1, -2, 0),
        high: vector(2, 0, 0),
    };
    j.bounds = around;
    j.s0 = stream(vector(1, 0, 0), 1, 1, 2);
    j.s1 = stream(vector(0, 1, 0), 2, 0, 2);
    j.s2 = stream(vector(1, 1, 0), 1, 2, 2);
    j.time = vector(6, 2, 0);
    j.row0 = vector(0, -2, 0);
    j
}

// Box 0..3 by 0..2, d (0,1), H (1,2), S (0,2).
pub fn stretched() -> Job {
    let along = stream(vector(0, 1, 0), 0, 0, 0);
    single(2, vector(3, 2, 0), along, vector(1, 2, 0), vector(0, 2, 0))
}

// Box 0..1 cubed, d (1,0,0), H (1,2,1), S (1,2,0), through for kind 0 and local for kind 1.
pub fn slanted(kind: u8) -> Job {
    let mut along = stream(vector(1, 0, 0), 0, 0, 0);
    along.kind = kind;
    single(3, vector(1, 1, 1), along, vector(1, 2, 1), vector(1, 2, 0))
}

// Box 5..5, d (1), H (1), S (0).
pub fn point() -> Job {
    let mut j = line(0);
    let corner = vector(5, 0, 0);
    let only = Bounds {
        low: corner,
        high: corner,
    };
    j.bounds = only;
    j.row0 = vector(0, 0, 0);
    j
}

// Box 0..1 squared, d (1,0), H (64,1), S (1,reach): a delay of 64 in each of reach + 2 cells.
pub fn delayed(reach: i64) -> Job {
    let along = stream(vector(1, 0, 0), 0, 0, 0);
    let row0 = vector(1, reach, 0);
    single(2, vector(1, 1, 0), along, vector(64, 1, 0), row0)
}
