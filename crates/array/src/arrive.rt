// The arrivals of a tick: each stream's band takes what arrives at its cells.
ghost use Rattle.array.specs.Steps.{Roomy, Arrived};
ghost use Rattle.frame.specs.Framing.{Framed};

use frame::Frame;

// Each stream's band is lent on by itself to be rewritten. Its part of the places stands here and in put_values: document 01 names this form.
#[tactic(auto, using(crate::proofs::LendingLaws::lies_in))]
pub fn arrive(f: Frame, t: u64, places: &mut [u32])
    requires { Framed f × Roomy f places.old }
    ensures { Arrived f.job t f.job.m places.old places.new }
{
    for s in 0..f.job.m {
        let b = frame::band_at(f.bands, s);
        let from = b.from as usize;
        let end = from + (f.cells * b.w) as usize;
        bands::shift(&mut places[from..end], f.rectangle, b, f.cells, t % b.w);
    }
}
