// Words, numbers and lines of output.
ghost use Rattle.std.specs.Prelude.{◌<◌};

use job::numbers::Counted;
use space::vector::Vector;
use std::io::{self, Write};

// The text as it is.
pub fn say<W: Write>(out: &mut W, text: &[u8]) -> io::Result<()> {
    out.write_all(text)
}

// A blank and a number.
pub fn number<W: Write>(out: &mut W, x: u64) -> io::Result<()> {
    say(out, b" ")?;
    write!(out, "{x}")
}

// A blank before every n-th value.
pub fn every<W: Write>(out: &mut W, n: usize, s: &[u32]) -> io::Result<()>
    requires { 0 < n }
{
    for x in s.iter().skip(n - 1).step_by(n) {
        number(out, u64::from(*x))?;
    }
    Ok(())
}

// A line that says what holds, or that it does not.
pub fn holds<W: Write>(out: &mut W, what: &[u8], so: bool) -> io::Result<()> {
    say(out, what)?;
    if so {
        say(out, b"\n")?;
    } else {
        say(out, b" NOT\n")?;
    }
    Ok(())
}

// Who replied, and what: 0 with a count of the unit, or the refusal.
pub fn reply<W: Write>(out: &mut W, who: &[u8], a: Counted, unit: &[u8]) -> io::Result<()> {
    say(out, who)?;
    if a.number == 0 {
        say(out, unit)?;
        number(out, a.count)?;
    } else {
        refusal(out, a)?;
    }
    say(out, b"\n")
}

// The number of refusal, with R where it is given.
fn refusal<W: Write>(out: &mut W, a: Counted) -> io::Result<()> {
    say(out, b" refused")?;
    number(out, u64::from(a.number))?;
    if 0 < a.count {
        say(out, b" room")?;
        number(out, a.count)?;
    }
    Ok(())
}

// The first two coordinates of a point, or the first alone where there is one.
pub fn point<W: Write>(out: &mut W, p: Vector, n: u8) -> io::Result<()> {
    let Vector { x0, x1, .. } = p;
    write!(out, "{x0}")?;
    if 1 < n {
        write!(out, ",{x1}")?;
    }
    Ok(())
}
