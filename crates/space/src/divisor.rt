// Greatest common divisors.
ghost use Rattle.std.specs.Prelude.{[], ◌∷◌};
ghost use Rattle.space.specs.Vectors.{entries};
ghost use Rattle.space.specs.Divisors.{GcdOf, sizes_of};

use crate::vector::Vector;

// The greatest common divisor of two numbers.
pub fn gcd(a: u64, b: u64) -> u64
    ensures { GcdOf (a ∷ b ∷ []) result }
{
    let mut x = a;
    let mut y = b;
    // No index is counted here: the rests fall until nothing is left.
    while y != 0 {
        let rest = x % y;
        x = y;
        y = rest;
    }
    x
}

// The greatest common divisor of the entries.
pub fn gcd_of_entries(v: Vector) -> u64
    ensures { GcdOf (sizes_of (entries v)) result }
{
    let last_two = gcd(v.x2.unsigned_abs(), v.x3.unsigned_abs());
    let last_three = gcd(v.x1.unsigned_abs(), last_two);
    gcd(v.x0.unsigned_abs(), last_three)
}
