// The work of a tick, once all has arrived: each of its points takes what stands in the places of its cell, is worked, and stores its new values there.
ghost use Rattle.std.specs.Prelude.{◌≡◌, List, ℕ, ◌+◌, ◌*◌, ◌%◌, ◌<◌, length, get_or, set};
ghost use Rattle.job.specs.Record.{points as points_of};
ghost use Rattle.frame.specs.Framing.{Framed, Stands};
ghost use Rattle.array.specs.Steps.{Tabled, Roomy, Supplied, Arrived, taken, Put, Point, Points};

use bands::Band;
use frame::{Frame, Spot};

// What stands in place t mod w of cell x, in a stream's band.
fn standing_at(places: &[u32], b: Band, t: u64, x: u64) -> u32
    requires { (0 < b.w) × (b.from + (x * b.w + t % b.w) < length places.now) }
    ensures { result ≡ get_or places.now (b.from + (x * b.w + t % b.w)) 0 }
{
    let i = (b.from + (x * b.w + t % b.w)) as usize;
    places[i]
}

// What comes in on stream s at a spot: what stands in its cell, or the input where there is no point before. (The tables one by one, here and below, each function those that it reads or writes: see `one_tick`.)
fn incoming_at(f: Frame, t: u64, input: &[u32], places: &[u32], spot: Spot, s: u8) -> u32
    requires { Tabled f input.now × Roomy f places.now × Stands f spot × (s < f.job.m) }
    ensures { result ≡ taken f.job input.now t places.now s spot.cell spot.place }
{
    match tables::table::previous_at(f.job, s, spot.point) {
        Some(_) => standing_at(places, frame::band_at(f.bands, s), t, spot.cell),
        None => input[tables::table::place_in_table(s, f.points, spot.place)],
    }
}

// What comes in at a spot on every stream.
fn incoming_all(f: Frame, t: u64, input: &[u32], places: &[u32], spot: Spot) -> [u32; 4]
    requires { Tabled f input.now × Roomy f places.now × Stands f spot }
    ensures { (s : ℕ) → s < f.job.m → get_or result s 0 ≡ taken f.job input.now t places.now s spot.cell spot.place }
{
    crate::gather::gathered(f.job.m, |s| incoming_at(f, t, input, places, spot, s))
}

// v goes to place slot of cell x, in a band of n places a cell.
fn put_value(band: &mut [u32], n: u64, slot: u64, x: u64, v: u32)
    requires { x * n + slot < length band.old }
    ensures { band.new ≡ set band.old (x * n + slot) v }
{
    let i = (x * n + slot) as usize;
    band[i] = v;
}

// The values at a spot go to its cell, each stream's band lent on by itself.
#[tactic(auto, using(crate::proofs::LendingLaws::lies_in))]
fn put_values(f: Frame, t: u64, values: &[u32], places: &mut [u32], spot: Spot)
    requires { Tabled f values.now × Roomy f places.old × Stands f spot }
    ensures { Put f.job t values.now spot.cell spot.place f.job.m places.old places.new }
{
    for s in 0..f.job.m {
        let b = frame::band_at(f.bands, s);
        let from = b.from as usize;
        let end = from + (f.cells * b.w) as usize;
        let i = tables::table::place_in_table(s, f.points, spot.place);
        let v = values[i];
        put_value(&mut places[from..end], b.w, t % b.w, spot.cell, v);
    }
}

// The point at place k, worked in its tick t.
fn work_point(f: Frame, t: u64, input: &[u32], values: &mut [u32], places: &mut [u32], k: u64)
    requires { Tabled f input.now × Tabled f values.old × Roomy f places.old × (k < points_of f.job) }
    ensures { Point f.job input.now t k places.old values.old places.new values.new }
{
    let spot = frame::spot_at(f, k);
    let got = incoming_all(f, t, input, places, spot);
    tables::table::put_column(f.job, values, f.points, k, got);
    put_values(f, t, values, places, spot);
}

// All points of tick t, in places where all has arrived.
pub fn work(
    f: Frame,
    timetable: &[u64],
    t: u64,
    input: &[u32],
    values: &mut [u32],
    places: &mut [u32],
)
    requires { Supplied f input.now values.old places.old timetable.now }
    ensures { (before : List ℕ) → Arrived f.job t f.job.m before places.old → Points f.job input.now t (points_of f.job) before values.old places.new values.new }
{
    for k in 0..f.points {
        if timetable[k as usize] == t {
            work_point(f, t, input, values, places, k);
        }
    }
}
