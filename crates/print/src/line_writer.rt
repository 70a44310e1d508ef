// The line writer, which holds the lent bytes and the place of the next one from a line's first word to its end. Its thin functions call a covered function on the slice and the number, and move its place; `word` and `number` do so with a writer by value, and hand it on.
ghost use Rattle.std.specs.Prelude.{◌≡◌};
ghost use Rattle.buffer.specs.Put.{Fits};
ghost use Rattle.print.specs.Decimal.{value_of, decimal};
ghost use Rattle.print.specs.Words.{word_bytes};
ghost use Rattle.print.specs.LineWriter.{wrote};

use crate::numbers::Number;
use crate::words::Word;

// The lent bytes, and the place of the next one.
#[derive(Drop)]
pub struct Line<'a> {
    pub out: &'a mut [u8],
    pub at: usize,
}

// A writer that puts from a place on.
pub fn begin<'a>(out: &'a mut [u8], at: usize) -> Line<'a>
    ensures begun { (result.out ≡ out.entry) × (result.at ≡ at) }
    ensures same_reference { result.out.ghost_name ≡ out.entry.ghost_name }
{
    Line { out, at }
}

// Puts a word, and the writer is handed on. (By value beside `add_word`, and so `number` beside `add_number`: the pages name all four.)
pub fn word<'a>(l: Line<'a>, w: Word) -> Line<'a>
    requires { Fits l.out.now l.at (word_bytes w) }
    ensures { result ≡ wrote l.entry (word_bytes w) }
{
    let mut writer = l;
    add_word(&mut writer, w);
    writer
}

// Puts a number, and the writer is handed on.
pub fn number<'a>(l: Line<'a>, x: Number) -> Line<'a>
    requires { Fits l.out.now l.at (decimal (value_of x)) }
    ensures { result ≡ wrote l.entry (decimal (value_of x)) }
{
    let mut writer = l;
    add_number(&mut writer, x);
    writer
}

// Puts a word, in the writer's place. (A caller whose bytes the writer holds knows them at the end by `same_reference`.)
pub fn add_word<'a>(l: &mut Line<'a>, w: Word)
    requires { Fits l.old.out.now l.old.at (word_bytes w) }
    ensures wrote { l.new ≡ wrote l.old (word_bytes w) }
    ensures same_reference { l.new.out.ghost_name ≡ l.old.out.ghost_name }
{
    let at = l.at;
    let next = crate::words::put_word(&mut *l.out, at, w);
    l.at = next;
}

// Puts a number, in the writer's place.
pub fn add_number<'a>(l: &mut Line<'a>, x: Number)
    requires { Fits l.old.out.now l.old.at (decimal (value_of x)) }
    ensures wrote { l.new ≡ wrote l.old (decimal (value_of x)) }
    ensures same_reference { l.new.out.ghost_name ≡ l.old.out.ghost_name }
{
    let at = l.at;
    let next = crate::numbers::put_number(&mut *l.out, at, x);
    l.at = next;
}

// The place of the next byte; the writer is given up.
pub fn end<'a>(l: Line<'a>) -> usize
    ensures { (result ≡ l.entry.at) × (l.exit.0.now ≡ l.entry.out.now) }
{
    l.at
}
