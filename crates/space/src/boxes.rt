// The box of points and its order: lexicographic, the first coordinate most significant.
ghost use Rattle.std.specs.Prelude.{◌≡◌, cond, ℕ, ◌+◌, ◌*◌, ◌<◌, ◌≤◌, ℤ, pos, ◌≤ℤ◌};
ghost use mathlib.Core.List.{List, [], ◌∷◌, map, zip_with};
ghost use Rattle.std.specs.Int.Signed.{lt_z};
ghost use Rattle.space.specs.Numbers.{Size, Tells, steps, coordinate, difference, side_limit, entry, limit};
ghost use Rattle.space.specs.Vectors.{entries, dot_of, plus_of, Sized};
ghost use Rattle.space.specs.Order.{AtMost};
ghost use Rattle.space.specs.Boxes.{Within, In, Apart, Solid, box_of, across, count_of, place_of, point_of, PointAt, back_of, Least, Greatest, Reaches};

use crate::vector::Vector;

// The bounds of a box, l and u of each dimension. An unused dimension is 0..0. (How large they are is a clause, `Within`: a record holds bounds of any size, so that refusal 6 can be the reply. So are `Solid` and `In`: facts of a box and of what is asked of it.)
#[derive(Clone, Copy)]
pub struct Bounds {
    pub low: Vector,
    pub high: Vector,
}

// The products of a row over the box: the least, the greatest, and how many numbers there are from the one to the other.
#[derive(Clone, Copy)]
pub struct Reach {
    pub low: i64,
    pub high: i64,
    pub count: u64,
}

// A whole number, not negative, for each dimension. (Four fields, as of a `Vector`, which is signed.)
#[derive(Clone, Copy)]
struct Counts {
    n0: u64,
    n1: u64,
    n2: u64,
    n3: u64,
}

// Is p a point of the box?
pub fn contains(b: Bounds, p: Vector) -> bool
    ensures { Tells (In (box_of b) (entries p)) result }
{
    let l = b.low;
    let u = b.high;
    within(l.x0, p.x0, u.x0)
        && within(l.x1, p.x1, u.x1)
        && within(l.x2, p.x2, u.x2)
        && within(l.x3, p.x3, u.x3)
}

// How many points the box has: none where some l is over its u.
pub fn count(b: Bounds) -> u64
    requires { Within difference b }
    ensures { result ≡ count_of (box_of b) }
{
    let n = lengths(b);
    n.n0 * (n.n1 * (n.n2 * n.n3))
}

// The place in box order of a point of the box.
pub fn place(b: Bounds, p: Vector) -> u64
    requires { Within difference b × In (box_of b) (entries p) }
    ensures { result ≡ place_of (box_of b) (entries p) }
{
    let n = lengths(b);
    let o = steps_each(b.low, p);
    ((o.n0 * n.n1 + o.n1) * n.n2 + o.n2) * n.n3 + o.n3
}

// The point at a place in box order.
pub fn point(b: Bounds, k: u64) -> Vector
    requires { Within difference b × (k < count_of (box_of b)) }
    ensures { entries result ≡ point_of (box_of b) k }
{
    crate::vector::plus(b.low, offset(k, lengths(b)))
}

// The point after p in box order. After the last there is none, and the answer is any.
pub fn next(b: Bounds, p: Vector) -> Vector
    requires { Within difference b × In (box_of b) (entries p) }
    ensures { (k : ℕ) → entries p ≡ point_of (box_of b) k → PointAt (box_of b) (k + 1) (entries result) }
{
    let l = b.low;
    let u = b.high;
    if p.x3 < u.x3 {
        return Vector { x3: p.x3 + 1, ..p };
    }
    if p.x2 < u.x2 {
        return Vector {
            x2: p.x2 + 1,
            x3: l.x3,
            ..p
        };
    }
    if p.x1 < u.x1 {
        return Vector {
            x1: p.x1 + 1,
            x2: l.x2,
            x3: l.x3,
            ..p
        };
    }
    Vector { x0: p.x0 + 1, ..l }
}

// The place of p - d for a point p of the box, if it is in the box. (An `if`: only there may the place be asked.)
pub fn back(b: Bounds, d: Vector, p: Vector) -> Option<u64>
    requires { Within difference b × Sized difference (entries d) × In (box_of b) (entries p) }
    ensures { (k : ℕ) → entries p ≡ point_of (box_of b) k → result ≡ back_of (box_of b) (entries d) k }
{
    let q = crate::vector::minus(p, d);
    if contains(b, q) {
        Some(place(b, q))
    } else {
        None
    }
}

// The least product of a row and a point of the box.
fn least(h: Vector, b: Bounds) -> i64
    requires { Within limit b × Sized limit (entries h) × Solid (box_of b) }
    ensures { Least (entries h) (box_of b) result }
{
    crate::vector::dot(h, least_corner(h, b))
}

// The greatest product of a row and a point of the box: the least of the opposite row, turned.
fn greatest(h: Vector, b: Bounds) -> i64
    requires { Within limit b × Sized limit (entries h) × Solid (box_of b) }
    ensures { Greatest (entries h) (box_of b) result }
{
    0 - least(crate::vector::times(-1, h), b)
}

// The reach of a row.
pub fn reach_of(h: Vector, b: Bounds) -> Reach
    requires { Within coordinate b × Sized entry (entries h) × Solid (box_of b) }
    ensures { Reaches (entries h) (box_of b) result }
{
    let low = least(h, b);
    let high = greatest(h, b);
    Reach {
        low,
        high,
        count: steps_above(low, high + 1),
    }
}

// The differences of two points of the box, themselves a box.
pub fn differences(b: Bounds) -> Bounds
    requires { Within coordinate b }
    ensures sized { Within difference result }
    ensures apart { (y : List ℤ) → In (box_of result) y → Apart (box_of b) y }
    ensures all { (y : List ℤ) → Apart (box_of b) y → In (box_of result) y }
{
    Bounds {
        low: crate::vector::minus(b.low, b.high),
        high: crate::vector::minus(b.high, b.low),
    }
}

// The least point p with p and p + y in the box: the low corner of the points that both have.
pub fn least_start(b: Bounds, y: Vector) -> Vector
    requires { Within coordinate b × Sized difference (entries y) × Apart (box_of b) (entries y) }
    ensures here { In (box_of b) (entries result) × In (box_of b) (plus_of (entries result) (entries y)) }
    ensures least { (p : List ℤ) → In (box_of b) p → In (box_of b) (plus_of p (entries y)) → AtMost (entries result) p }
{
    let l = b.low;
    let s = crate::vector::minus(l, y);
    Vector {
        x0: l.x0.max(s.x0),
        x1: l.x1.max(s.x1),
        x2: l.x2.max(s.x2),
        x3: l.x3.max(s.x3),
    }
}

// Does x lie from l to u?
pub fn within(l: i64, x: i64, u: i64) -> bool
    ensures { Tells ((l ≤ℤ x) × (x ≤ℤ u)) result }
{
    l <= x && x <= u
}

// How far x lies above l, 0 where it does not.
pub fn steps_above(l: i64, x: i64) -> u64
    requires { Size limit l × Size limit x }
    ensures { result ≡ steps l x }
{
    if x < l { 0 } else { (x - l) as u64 }
}

// The same in each dimension.
fn steps_each(l: Vector, x: Vector) -> Counts
    requires { Sized limit (entries l) × Sized limit (entries x) }
    ensures { (result.n0 ∷ result.n1 ∷ result.n2 ∷ result.n3 ∷ []) ≡ zip_with steps (entries l) (entries x) }
{
    Counts {
        n0: steps_above(l.x0, x.x0),
        n1: steps_above(l.x1, x.x1),
        n2: steps_above(l.x2, x.x2),
        n3: steps_above(l.x3, x.x3),
    }
}

// How many points each side has.
fn lengths(b: Bounds) -> Counts
    requires { Within difference b }
    ensures { (result.n0 ∷ result.n1 ∷ result.n2 ∷ result.n3 ∷ []) ≡ map across (box_of b) }
{
    let one = Vector {
        x0: 1,
        x1: 1,
        x2: 1,
        x3: 1,
    };
    steps_each(b.low, crate::vector::plus(b.high, one))
}

// What the point at place k has over the low corner of any box with n points on each side: the digits of k.
fn offset(k: u64, n: Counts) -> Vector
    requires { (n.n0 ≤ side_limit) × (n.n1 ≤ side_limit) × (n.n2 ≤ side_limit) × (n.n3 ≤ side_limit) × (k < n.n0 * (n.n1 * (n.n2 * n.n3))) }
    ensures sized { Sized side_limit (entries result) }
    ensures leads { (b : Bounds) → (n.n0 ∷ n.n1 ∷ n.n2 ∷ n.n3 ∷ []) ≡ map across (box_of b) → plus_of (entries b.low) (entries result) ≡ point_of (box_of b) k }
{
    let behind_1 = n.n2 * n.n3;
    let behind_0 = n.n1 * behind_1;
    let k1 = k % behind_0;
    let k2 = k1 % behind_1;
    Vector {
        x0: (k / behind_0) as i64,
        x1: (k1 / behind_1) as i64,
        x2: (k2 / n.n3) as i64,
        x3: (k2 % n.n3) as i64,
    }
}

// a, or b where h is negative.
fn chosen(h: i64, a: i64, b: i64) -> i64
    ensures { result ≡ cond (lt_z h (pos 0)) b a }
{
    if h < 0 { b } else { a }
}

// The point of the box at which the row's product is least: a corner.
fn least_corner(h: Vector, b: Bounds) -> Vector
    requires { Solid (box_of b) }
    ensures inside { In (box_of b) (entries result) }
    ensures below { (p : List ℤ) → In (box_of b) p → dot_of (entries h) (entries result) ≤ℤ dot_of (entries h) p }
{
    let l = b.low;
    let u = b.high;
    Vector {
        x0: chosen(h.x0, l.x0, u.x0),
        x1: chosen(h.x1, l.x1, u.x1),
        x2: chosen(h.x2, l.x2, u.x2),
        x3: chosen(h.x3, l.x3, u.x3),
    }
}
