// The line of a verdict in a lent buffer, by one writer that holds it from the first word to the newline.
ghost use Rattle.std.specs.Prelude.{◌≡◌, ◌++◌, ◌≤◌, length};
ghost use Rattle.buffer.specs.Put.{Fits, Put};
ghost use Rattle.print.specs.Decimal.{value_of, decimal};
ghost use Rattle.print.specs.Words.{word_bytes};
ghost use Rattle.line.specs.Fields.{fields_bytes, lead, besides};
ghost use Rattle.line.specs.Lines.{line_of, Writes};

use crate::said::{Said, add_fields};
use print::line_writer::{add_number, add_word, begin, end};
use print::numbers::Number;
use print::words::Word;
use verdict::judge::Verdict;

// No line is longer, each number counted at 21 bytes.
pub const LONGEST: usize = 269;

// Writes the line of a verdict on a job of n dimensions, closed by a newline, to the front of a buffer, and says how long it is. A buffer that the longest line does not fit into stays as it was, and the answer is 0. (No Option: C gets the length.)
pub fn write_line(out: &mut [u8], n: u8, v: Verdict) -> usize
    ensures writes { Writes out.old (line_of n v) result out.new }
    ensures inside { result ≤ length out.new }
{
    if out.len() < LONGEST {
        return 0;
    }
    put_line(out, lead_of(v), first_of(v), Said { n, verdict: v })
}

// The word that the line of a verdict starts with.
fn lead_of(v: Verdict) -> Word
    ensures { result ≡ (lead v).word }
{
    if let Verdict::Accepted(_extent) = v {
        Word::AcceptedCells
    } else {
        Word::Refused
    }
}

// The number after it.
fn first_of(v: Verdict) -> Number
    ensures { value_of result ≡ (lead v).value }
{
    if let Verdict::Accepted(extent) = v {
        Number::Count(extent.cells)
    } else {
        Number::Count(u64::from(verdict::numbers::in_numbers(v).number))
    }
}

// A whole line: its first word and number, what is said past them, and the newline.
fn put_line(out: &mut [u8], lead: Word, first: Number, said: Said) -> usize
    requires { Fits out.old 0 (word_bytes lead ++ decimal (value_of first) ++ fields_bytes (besides said.n said.verdict) ++ word_bytes Word.End) }
    ensures { Put out.old 0 (word_bytes lead ++ decimal (value_of first) ++ fields_bytes (besides said.n said.verdict) ++ word_bytes Word.End) result out.new }
{
    let mut l = begin(out, 0);
    add_word(&mut l, lead);
    add_number(&mut l, first);
    add_fields(&mut l, said);
    add_word(&mut l, Word::End);
    end(l)
}
