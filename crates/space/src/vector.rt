// Signed vectors of up to four entries: arithmetic and order.
ghost use Rattle.std.specs.Prelude.{◌≡◌};
ghost use Rattle.space.specs.Numbers.{Size, Tells, limit};
ghost use Rattle.space.specs.Vectors.{entries, dot_of, plus_of, minus_of, times_of, Sized};
ghost use Rattle.space.specs.Order.{Forward};

// A vector: a point, a difference of points, or a row of a matrix. Unused entries are 0. (Four numbers: the form that document 01 names.) Its order is box order, the first entry most significant. (How large its entries are is a clause, `Sized`: a record holds any, so that 6, 7 and 8 can be the reply.)
#[derive(Clone, Copy, PartialEq, Eq, PartialOrd, Ord)]
pub struct Vector {
    pub x0: i64,
    pub x1: i64,
    pub x2: i64,
    pub x3: i64,
}

// The vector of zeros.
pub const ZERO: Vector = Vector {
    x0: 0,
    x1: 0,
    x2: 0,
    x3: 0,
};

// The product of a row and a vector.
pub fn dot(h: Vector, x: Vector) -> i64
    requires { Sized limit (entries h) × Sized limit (entries x) }
    ensures { result ≡ dot_of (entries h) (entries x) }
{
    h.x0 * x.x0 + (h.x1 * x.x1 + (h.x2 * x.x2 + h.x3 * x.x3))
}

// p + q
pub fn plus(p: Vector, q: Vector) -> Vector
    requires { Sized limit (entries p) × Sized limit (entries q) }
    ensures { entries result ≡ plus_of (entries p) (entries q) }
{
    Vector {
        x0: p.x0 + q.x0,
        x1: p.x1 + q.x1,
        x2: p.x2 + q.x2,
        x3: p.x3 + q.x3,
    }
}

// q - p
pub fn minus(q: Vector, p: Vector) -> Vector
    requires { Sized limit (entries q) × Sized limit (entries p) }
    ensures { entries result ≡ minus_of (entries q) (entries p) }
{
    Vector {
        x0: q.x0 - p.x0,
        x1: q.x1 - p.x1,
        x2: q.x2 - p.x2,
        x3: q.x3 - p.x3,
    }
}

// z times v
pub fn times(z: i64, v: Vector) -> Vector
    requires { Size limit z × Sized limit (entries v) }
    ensures { entries result ≡ times_of z (entries v) }
{
    Vector {
        x0: z * v.x0,
        x1: z * v.x1,
        x2: z * v.x2,
        x3: z * v.x3,
    }
}

// Is the first entry that is not 0 positive? That is, does v stand after the vector of zeros?
pub fn is_forward(v: Vector) -> bool
    ensures { Tells (Forward (entries v)) result }
{
    ZERO < v
}
