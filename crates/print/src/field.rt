// A field of a line.
ghost use Rattle.std.specs.Prelude.{◌++◌};
ghost use Rattle.buffer.specs.Put.{Fits, Put};
ghost use Rattle.print.specs.Decimal.{value_of, decimal};
ghost use Rattle.print.specs.Words.{word_bytes};

use crate::numbers::Number;
use crate::words::Word;

// A word and a number, and the next place.
pub fn put_field(out: &mut [u8], at: usize, w: Word, x: Number) -> usize
    requires { Fits out.old at (word_bytes w ++ decimal (value_of x)) }
    ensures { Put out.old at (word_bytes w ++ decimal (value_of x)) result out.new }
{
    let next = crate::words::put_word(out, at, w);
    crate::numbers::put_number(out, next, x)
}
