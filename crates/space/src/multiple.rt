// The test of one vector against another: which whole multiple it is.
ghost use Rattle.std.specs.Prelude.{◌≡◌, ℤ, pos, ◌*ℤ◌};
ghost use Rattle.space.specs.Numbers.{Size, limit};
ghost use Rattle.space.specs.Vectors.{entries, times_of, Sized, NonZero};
ghost use Rattle.space.specs.Multiples.{TellsMultiple};

use crate::vector::Vector;

// Which whole multiple of d is y? (d is not 0: of 0, 0 is every multiple.)
pub fn multiple_of(y: Vector, d: Vector) -> Option<i64>
    requires { Sized limit (entries y) × Sized limit (entries d) × NonZero (entries d) }
    ensures { TellsMultiple (entries y) (entries d) result }
{
    if d.x0 != 0 {
        return quotient_tried(y, d, y.x0, d.x0);
    }
    if d.x1 != 0 {
        return quotient_tried(y, d, y.x1, d.x1);
    }
    if d.x2 != 0 {
        return quotient_tried(y, d, y.x2, d.x2);
    }
    quotient_tried(y, d, y.x3, d.x3)
}

// The same, where a and b are the entries of y and d at one place and b is not 0: only a / b can be the multiple.
fn quotient_tried(y: Vector, d: Vector, a: i64, b: i64) -> Option<i64>
    requires sized { Sized limit (entries y) × Sized limit (entries d) × Size limit a × Size limit b }
    requires fact { (b ≡ pos 0 → ⊥) × ((z : ℤ) → entries y ≡ times_of z (entries d) → a ≡ z *ℤ b) }
    ensures { TellsMultiple (entries y) (entries d) result }
{
    if a % b != 0 {
        return None;
    }
    let z = a / b;
    // (An `if`, since its two ends are two proofs.)
    if y == crate::vector::times(z, d) {
        Some(z)
    } else {
        None
    }
}
