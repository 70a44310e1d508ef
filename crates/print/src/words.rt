// The words of the line, put into a buffer from a place on.
ghost use Rattle.std.specs.Prelude.{◌≡◌};
ghost use Rattle.buffer.specs.Put.{Fits, Put};
ghost use Rattle.print.specs.Words.{word_bytes};

// Each with the blanks about it.
#[derive(Clone, Copy)]
pub enum Word {
    AcceptedCells,
    Ticks,
    Room,
    Refused,
    Stream,
    Pair,
    Slash,
    Blank,
    Hops,
    End,
}

// The bytes of a word.
#[tactic(auto, unfolding(crate::specs::Words::word_bytes))]
fn bytes_of(w: Word) -> &'static [u8]
    ensures { result.now ≡ word_bytes w }
{
    match w {
        Word::AcceptedCells => b"accepted cells ",
        Word::Ticks => b" ticks ",
        Word::Room => b" room ",
        Word::Refused => b"refused ",
        Word::Stream => b" stream ",
        Word::Pair => b" pair ",
        Word::Slash => b" / ",
        Word::Blank => b" ",
        Word::Hops => b" hops ",
        Word::End => b"\n",
    }
}

// A word, and the next place.
pub fn put_word(out: &mut [u8], at: usize, w: Word) -> usize
    requires { Fits out.old at (word_bytes w) }
    ensures { Put out.old at (word_bytes w) result out.new }
{
    buffer::put_bytes(out, at, bytes_of(w))
}
