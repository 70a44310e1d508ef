// What a line says of a verdict past its first number, field by field: a word and a number each, put into a buffer from a place on.
ghost use Rattle.std.specs.Prelude.{◌≡◌, ◌-◌, [], ◌∷◌, take};
ghost use Rattle.space.specs.Vectors.{entries};
ghost use Rattle.buffer.specs.Put.{Fits, Put};
ghost use Rattle.print.specs.LineWriter.{wrote};
ghost use Rattle.line.specs.Fields.{fields_bytes, coordinates, pair_fields, size_fields, stream_fields, link_fields, besides};

use print::line_writer::Line;
use print::numbers::Number;
use print::words::Word;
use space::vector::Vector;
use verdict::judge::{Collision, Extent, Pair, Verdict};

// A verdict on a job of n dimensions, of which a point shows as many coordinates.
#[derive(Clone, Copy)]
pub struct Said {
    pub n: u8,
    pub verdict: Verdict,
}

// The first n coordinates of a point, after the word w and separated by a blank.
fn put_point(out: &mut [u8], at: usize, n: u8, w: Word, p: Vector) -> usize
    requires { Fits out.old at (fields_bytes (coordinates w (take n (entries p)))) }
    ensures { Put out.old at (fields_bytes (coordinates w (take n (entries p)))) result out.new }
{
    let all = [p.x0, p.x1, p.x2, p.x3];
    let shown = &all[..usize::from(n).min(4)];
    let mut next = at;
    let mut before = w;
    for x in shown {
        next = print::field::put_field(out, next, before, Number::Signed(*x));
        before = Word::Blank;
    }
    next
}

// Two points.
fn put_pair(out: &mut [u8], at: usize, n: u8, pair: Pair) -> usize
    requires { Fits out.old at (fields_bytes (pair_fields n pair)) }
    ensures { Put out.old at (fields_bytes (pair_fields n pair)) result out.new }
{
    let p = pair.p;
    let q = pair.q;
    let i = put_point(out, at, n, Word::Pair, p);
    put_point(out, i, n, Word::Slash, q)
}

// Ticks and room.
fn put_sizes(out: &mut [u8], at: usize, z: Extent) -> usize
    requires { Fits out.old at (fields_bytes (size_fields z)) }
    ensures { Put out.old at (fields_bytes (size_fields z)) result out.new }
{
    let i = print::field::put_field(out, at, Word::Ticks, Number::Count(z.ticks));
    print::field::put_field(out, i, Word::Room, Number::Count(z.room))
}

// A stream.
fn put_stream(out: &mut [u8], at: usize, stream: u8) -> usize
    requires { Fits out.old at (fields_bytes (stream_fields stream)) }
    ensures { Put out.old at (fields_bytes (stream_fields stream)) result out.new }
{
    print::field::put_field(out, at, Word::Stream, Number::Count(u64::from(stream)))
}

// Two tokens that meet.
fn put_link(out: &mut [u8], at: usize, n: u8, collision: Collision) -> usize
    requires { Fits out.old at (fields_bytes (link_fields n collision)) }
    ensures { Put out.old at (fields_bytes (link_fields n collision)) result out.new }
{
    let pair = collision.pair;
    let i = put_stream(out, at, collision.stream);
    let j = put_pair(out, i, n, pair);
    print::field::put_field(out, j, Word::Hops, Number::Signed(collision.hops))
}

// All of it, and the next place.
pub fn put_fields(out: &mut [u8], at: usize, said: Said) -> usize
    requires { Fits out.old at (fields_bytes (besides said.n said.verdict)) }
    ensures { Put out.old at (fields_bytes (besides said.n said.verdict)) result out.new }
{
    let n = said.n;
    let v = said.verdict;
    match v {
        Verdict::Accepted(z) => put_sizes(out, at, z),
        Verdict::Limit(_number) => at,
        Verdict::Precedence(s) => put_stream(out, at, s),
        Verdict::Hop(s) => put_stream(out, at, s),
        Verdict::Cell(pair) => put_pair(out, at, n, pair),
        Verdict::Link(collision) => put_link(out, at, n, collision),
    }
}

// The same by a writer that holds its buffer, which is handed on. (By value beside `add_fields`: the pages name both.)
pub fn fields<'a>(l: Line<'a>, said: Said) -> Line<'a>
    requires { Fits l.out.now l.at (fields_bytes (besides said.n said.verdict)) }
    ensures { result ≡ wrote l.entry (fields_bytes (besides said.n said.verdict)) }
{
    let mut writer = l;
    add_fields(&mut writer, said);
    writer
}

// The same, in the writer's place.
pub fn add_fields<'a>(l: &mut Line<'a>, said: Said)
    requires { Fits l.old.out.now l.old.at (fields_bytes (besides said.n said.verdict)) }
    ensures wrote { l.new ≡ wrote l.old (fields_bytes (besides said.n said.verdict)) }
    ensures same_reference { l.new.out.ghost_name ≡ l.old.out.ghost_name }
{
    let at = l.at;
    let next = put_fields(&mut *l.out, at, said);
    l.at = next;
}
