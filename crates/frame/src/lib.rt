// The numbers of a job's array, worked out once: the rectangle of cells, the clock's start, the streams' bands; and the tick and the cell of a point.

#![tactic(auto)]

ghost use Rattle.std.specs.Prelude.{◌≡◌, ℕ, ◌+◌, ◌<◌, ◌≤◌, length, get_or};
ghost use Rattle.space.specs.Vectors.{entries};
ghost use Rattle.space.specs.Boxes.{In, point_of};
ghost use Rattle.job.specs.Record.{box, points as points_of};
ghost use Rattle.verdict.specs.Extents.{cells as cells_of};
ghost use Rattle.frame.specs.Frames.{tick_of, cell_of, from as from_of};
ghost use Rattle.frame.specs.Framing.{Runnable, Framed, Banded, band_at, AllBanded, Stands, Timed};

use bands::{Band, Rectangle};
use job::record::Job;
use space::vector::Vector;

// A job with the numbers of its array: its point count, the clock's low end, how many cells there are, the bands of its streams. (There is no meaning in the bands past the last stream's: four with m beside, since there is no heap.) That they are those of its array is said by Framed, in contracts: a ghost field would have to be truncated, and each proof to take it out again.
#[derive(Clone, Copy)]
pub struct Frame {
    pub job: Job,
    pub points: u64,
    pub start: i64,
    pub cells: u64,
    pub rectangle: Rectangle,
    pub bands: [Band; 4],
}

// A point on its way through a tick: its place in box order, and its cell. (That they are its own is a clause, `Stands`: a fact of a frame and a spot.)
#[derive(Clone, Copy)]
pub struct Spot {
    pub point: Vector,
    pub place: u64,
    pub cell: u64,
}

// The frame of a job. (The three reaches are those of `extent_of`, which keeps of them only what is counted.)
pub fn frame_of(j: Job) -> Frame
    requires { Runnable j }
    ensures is { result.job ≡ j }
    ensures framed { Framed result }
{
    let b = j.bounds;
    let rows = space::boxes::reach_of(j.row0, b);
    let columns = space::boxes::reach_of(j.row1, b);
    let clock = space::boxes::reach_of(j.time, b);
    let cells = rows.count * columns.count;
    Frame {
        job: j,
        points: space::boxes::count(b),
        start: clock.low,
        cells,
        rectangle: Rectangle {
            low0: rows.low,
            high0: rows.high,
            low1: columns.low,
            high1: columns.high,
        },
        bands: bands_of(j, cells),
    }
}

// The tick of a point of the box.
pub fn tick_at(f: Frame, p: Vector) -> u64
    requires { Framed f × In (box f.job) (entries p) }
    ensures { (k : ℕ) → entries p ≡ point_of (box f.job) k → result ≡ tick_of f.job k }
{
    space::boxes::steps_above(f.start, space::vector::dot(f.job.time, p))
}

// The cell of a point of the box.
pub fn cell_at(f: Frame, p: Vector) -> u64
    requires { Framed f × In (box f.job) (entries p) }
    ensures { (k : ℕ) → entries p ≡ point_of (box f.job) k → result ≡ cell_of f.job k }
{
    let v = verdict::course::time_and_place(f.job, p);
    bands::number_of(f.rectangle, v.x1, v.x2)
}

// The point at place k.
pub fn spot_at(f: Frame, k: u64) -> Spot
    requires { Framed f × (k < points_of f.job) }
    ensures is { result.place ≡ k }
    ensures stands { Stands f result }
{
    let p = space::boxes::point(f.job.bounds, k);
    Spot {
        point: p,
        place: k,
        cell: cell_at(f, p),
    }
}

// As many entries as a job may have points. (Fixed memory: there is no heap.)
pub const TIMETABLE: usize = 1024;

// The tick of every point, in box order. (By place and no `iter_mut`: what is promised, `Timed`, is said of each place.)
pub fn fill_timetable(f: Frame, timetable: &mut [u64])
    requires { Framed f × (points_of f.job ≤ length timetable.old) }
    ensures timed { Timed f.job timetable.new }
    ensures size { length timetable.new ≡ length timetable.old }
    ensures rest { (i : ℕ) → points_of f.job ≤ i → get_or timetable.new i 0 ≡ get_or timetable.old i 0 }
{
    let b = f.job.bounds;
    let mut p = space::boxes::point(b, 0);
    for k in 0..f.points {
        let i = k as usize;
        timetable[i] = tick_at(f, p);
        p = space::boxes::next(b, p);
    }
}

// The band of stream s.
pub fn band_at(bands: [Band; 4], s: u8) -> Band
    requires { s < 4 }
    ensures { result ≡ band_at bands s }
{
    let i = usize::from(s);
    bands[i]
}

// The bands of all streams, one behind the other, of so many cells each.
fn bands_of(j: Job, cells: u64) -> [Band; 4]
    requires { Runnable j × (cells ≡ cells_of j) }
    ensures { AllBanded j result }
{
    let mut last = band_of(j, 0, 0);
    let mut bands = [last; 4];
    for s in 1..j.m {
        last = band_of(j, s, last.from + cells * last.w);
        bands[usize::from(s)] = last;
    }
    bands
}

// The band of stream s, which begins at a place of the room.
fn band_of(j: Job, s: u8, from: u64) -> Band
    requires { Runnable j × (s < j.m) × (from ≡ from_of j s) }
    ensures { Banded j s result }
{
    let unit = verdict::course::course_of(j, s).unit;
    Band {
        from,
        w: unit.x0.unsigned_abs(),
        hop0: unit.x1,
        hop1: unit.x2,
    }
}
