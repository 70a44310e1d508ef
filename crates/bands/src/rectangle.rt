// The rectangle of cells. Its ghost fields may not import what names it, so it has a file of its own.
ghost use Rattle.std.specs.Prelude.{◌≤ℤ◌};
ghost use Rattle.space.specs.Numbers.{Size, limit};

// Rows low0 to high0 and columns low1 to high1: ends that fit, the low not above the high. (By number: a place has these two coordinates and no more.)
#[derive(Clone, Copy)]
pub struct Rectangle {
    pub low0: i64,
    pub high0: i64,
    pub low1: i64,
    pub high1: i64,
    pub ghost rows: { Size limit low0 × Size limit high0 × (low0 ≤ℤ high0) },
    pub ghost columns: { Size limit low1 × Size limit high1 × (low1 ≤ℤ high1) },
}
