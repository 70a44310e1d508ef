// The point worked in a tick at a cell.
ghost use Rattle.std.specs.Prelude.{◌≡◌, ◌<◌};
ghost use Rattle.job.specs.Record.{points};
ghost use Rattle.array.specs.Ticks.{works, point_at};
ghost use Rattle.verdict.specs.Verdicts.{Says};
ghost use Rattle.array.specs.Lookups.{Looks, unfound, looked_of};
ghost use Rattle.frame.specs.Framing.{Framed};

use frame::Frame;
use job::record::Job;
use space::vector::Vector;
use verdict::judge::Verdict;

// What a look-up answers in numbers: the number of refusal, 0 for none; whether there is a point, 1 or 0; and the point, 0 where there is none.
// It is the layout that C gets, so found is a number beside the point.
#[derive(Clone, Copy)]
pub struct Looked {
    pub number: u8,
    pub found: u8,
    pub point: Vector,
}

// The point that an accepted array works in tick t at cell x, or that there is none; else the verdict's refusal.
pub fn point_at(j: Job, t: u64, x: u64) -> Result<Option<Vector>, Verdict>
    ensures { Looks j t x result }
{
    point_judged(j, verdict::judge::verdict_of(j), t, x)
}

// The same of a job with its verdict.
pub fn point_judged(j: Job, v: Verdict, t: u64, x: u64) -> Result<Option<Vector>, Verdict>
    requires { Says j v }
    ensures { Looks j t x result }
{
    let Verdict::Accepted(_extent) = v else {
        return Err(v);
    };
    match place_at(frame::frame_of(j), t, x) {
        Some(k) => Ok(Some(space::boxes::point(j.bounds, k))),
        None => Ok(None),
    }
}

// The number and the point of a look-up. (No `From`: it would say less than the name.)
pub fn in_numbers(l: Result<Option<Vector>, Verdict>) -> Looked
    ensures { result ≡ looked_of l }
{
    match l {
        Ok(Some(point)) => Looked {
            number: 0,
            found: 1,
            point,
        },
        Ok(None) => nothing(0),
        Err(v) => nothing(verdict::numbers::in_numbers(v).number),
    }
}

// No point, with a number of refusal, as C gets it.
fn nothing(number: u8) -> Looked
    ensures { result ≡ unfound number }
{
    Looked {
        number,
        found: 0,
        point: space::vector::ZERO,
    }
}

// The place of that point: the last that passes both tests, from the end. (A `for` and no `find`: std says nothing of a search of numbers from behind.)
fn place_at(f: Frame, t: u64, x: u64) -> Option<u64>
    requires { Framed f }
    ensures { result ≡ point_at f.job t x }
{
    for k in (0..f.points).rev() {
        if is_worked(f, t, x, k) {
            return Some(k);
        }
    }
    None
}

// Is the point at place k worked in tick t at cell x?
fn is_worked(f: Frame, t: u64, x: u64, k: u64) -> bool
    requires { Framed f × (k < points f.job) }
    ensures { result ≡ works f.job t x k }
{
    let p = space::boxes::point(f.job.bounds, k);
    frame::tick_at(f, p) == t && frame::cell_at(f, p) == x
}
