// Decimal numbers, put into a buffer from a place on. Each function answers the next place.
ghost use Rattle.buffer.specs.Put.{Fits, Put};
ghost use Rattle.print.specs.Decimal.{digits, decimal, value_of};

// How many digits every number of 64 bits fits into.
const DIGITS: usize = 20;

// A number that is printed: one that has no sign, or a signed one.
#[derive(Clone, Copy)]
pub enum Number {
    Count(u64),
    Signed(i64),
}

// The digits of n, at most f of them. (By hand and not by `write!`: the promise names the bytes, and the buffer is lent.)
fn put_digits(out: &mut [u8], at: usize, f: usize, n: u64) -> usize
    requires { Fits out.old at (digits f n) }
    ensures { Put out.old at (digits f n) result out.new }
{
    if f == 0 {
        return at;
    }
    let last = (48 + n % 10) as u8;
    if n < 10 {
        out[at] = last;
        return at + 1;
    }
    let k = put_digits(out, at, f - 1, n / 10);
    out[k] = last;
    k + 1
}

// A signed number. (By hand, as `put_digits`.)
fn put_signed(out: &mut [u8], at: usize, x: i64) -> usize
    requires { Fits out.old at (decimal x) }
    ensures { Put out.old at (decimal x) result out.new }
{
    let size = x.unsigned_abs();
    if x < 0 {
        let next = buffer::put_bytes(out, at, b"-");
        return put_digits(out, next, DIGITS, size);
    }
    put_digits(out, at, DIGITS, size)
}

// A number, and the next place.
pub fn put_number(out: &mut [u8], at: usize, x: Number) -> usize
    requires { Fits out.old at (decimal (value_of x)) }
    ensures { Put out.old at (decimal (value_of x)) result out.new }
{
    match x {
        Number::Count(n) => put_digits(out, at, DIGITS, n),
        Number::Signed(z) => put_signed(out, at, z),
    }
}
