// One stream's band of register places: the cells of a rectangle, row by row, w places each. In a tick one place of every cell takes what arrives there from one hop back.

#![tactic(auto)]

ghost use Rattle.std.specs.Prelude.{◌≡◌, [], ◌∷◌, ◌<◌};
ghost use Rattle.space.specs.Boxes.{side, In, count_of, place_of, back_of};
ghost use Rattle.bands.specs.Bands.{rectangle_of, hop_of, arrival_in, Short, Lent, Shifted};
ghost use Rattle.bands.specs.Turns.{turn_of, Ordered};

// The rectangle of cells.
mod rectangle;

pub use rectangle::Rectangle;

// A stream's band: where it begins in the room, how many places a cell has, and one hop. (By number, as a `Rectangle`.)
#[derive(Clone, Copy)]
pub struct Band {
    pub from: u64,
    pub w: u64,
    pub hop0: i64,
    pub hop1: i64,
}

// How many columns the rectangle has.
fn columns(r: Rectangle) -> u64
    ensures { result ≡ count_of (side r.low1 r.high1 ∷ []) }
{
    (r.high1 - r.low1) as u64 + 1
}

// The number of a cell of the rectangle, row by row.
pub fn number_of(r: Rectangle, y0: i64, y1: i64) -> u64
    requires { In (rectangle_of r) (y0 ∷ y1 ∷ []) }
    ensures { result ≡ place_of (rectangle_of r) (y0 ∷ y1 ∷ []) }
{
    let row = space::boxes::steps_above(r.low0, y0);
    row * columns(r) + space::boxes::steps_above(r.low1, y1)
}

// The cell one hop before cell x, if it is in the rectangle. (An `if`: only there has a cell its number.)
fn behind(r: Rectangle, b: Band, x: u64) -> Option<u64>
    requires { Short b × (x < count_of (rectangle_of r)) }
    ensures { result ≡ back_of (rectangle_of r) (hop_of b) x }
{
    let n = columns(r);
    let y0 = r.low0 + (x / n) as i64 - b.hop0;
    let y1 = r.low1 + (x % n) as i64 - b.hop1;
    if space::boxes::within(r.low0, y0, r.high0) & space::boxes::within(r.low1, y1, r.high1) {
        Some(number_of(r, y0, y1))
    } else {
        None
    }
}

// Does one hop back never lead to a higher cell? (Otherwise it never leads to a lower one.)
fn falls(b: Band) -> bool
    requires { Short b }
    ensures { Ordered b result }
{
    if b.hop0 != 0 {
        return 0 < b.hop0;
    }
    0 <= b.hop1
}

// The cell whose turn is the k-th: from the last down, or from the first up.
fn turn(falls: bool, cells: u64, k: u64) -> u64
    requires { k < cells }
    ensures { result ≡ turn_of falls cells k }
{
    if falls { cells - 1 - k } else { k }
}

// What arrives at cell x, read from place slot one hop back.
fn arriving(places: &[u32], r: Rectangle, b: Band, slot: u64, x: u64) -> u32
    requires { Lent r b slot places.now × (x < count_of (rectangle_of r)) }
    ensures { result ≡ arrival_in r b slot places.now x }
{
    let found = behind(r, b, x);
    match found {
        Some(y) => {
            let i = (y * b.w + slot) as usize;
            places[i]
        }
        None => 0,
    }
}

// Place slot of every cell takes what arrives there, in an order in which every cell is read before it is rewritten.
pub fn shift(places: &mut [u32], r: Rectangle, b: Band, cells: u64, slot: u64)
    requires { Lent r b slot places.old × (cells ≡ count_of (rectangle_of r)) }
    ensures { Shifted r b slot places.old places.new }
{
    let down = falls(b);
    for k in 0..cells {
        let x = turn(down, cells, k);
        let v = arriving(&places[..], r, b, slot, x);
        let i = (x * b.w + slot) as usize;
        places[i] = v;
    }
}
