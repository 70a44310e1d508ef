// What follows the header: the box, the streams and the matrices, each piece from a part of the bytes.
ghost use Rattle.std.specs.Prelude.{◌≡◌, ℕ, ◌+◌, ◌*◌, ◌≤◌, length};
ghost use Rattle.layout.specs.Layout.{matrices_from, total_of, Lays};
ghost use Rattle.reader.specs.Pieces.{part, Headed, EntryAt, EntriesAt, VectorIn, BoxIn, StreamIn, StreamAt, RowAt};

use job::record::{Job, Stream};
use space::boxes::Bounds;
use space::vector::Vector;

// The record whose file the bytes are.
pub fn job_of(s: &[u8]) -> Job
    requires { Headed s.now }
    ensures { Lays result s.now }
{
    let n = header::byte(s, 2);
    let k = header::byte(s, 3);
    let m = header::byte(s, 4);
    let bounds = box_of(s, n);
    let s0 = stream_or(s, n, m, 0);
    let s1 = stream_or(s, n, m, 1);
    let s2 = stream_or(s, n, m, 2);
    let s3 = stream_or(s, n, m, 3);
    let time = row_or(s, n, k, m, 0);
    let row0 = row_or(s, n, k, m, 1);
    let row1 = row_or(s, n, k, m, 2);
    Job {
        n: s[2],
        k: s[3],
        m: s[4],
        bounds,
        s0,
        s1,
        s2,
        s3,
        time,
        row0,
        row1,
    }
}

// The box: l, u for each dimension.
fn box_of(s: &[u8], n: usize) -> Bounds
    requires { (n ≤ 4) × (16 + 2 * n ≤ length s.now) }
    ensures { BoxIn n (part s.now 16 (2 * n)) result }
{
    let end = layout::streams_from(n);
    bounds_of(&s[16..end])
}

// Stream i, or zeros where i is m or more.
fn stream_or(s: &[u8], n: usize, m: usize, i: usize) -> Stream
    requires { (n ≤ 4) × (m ≤ 4) × (matrices_from 1 n m ≤ length s.now) }
    ensures { StreamAt s.now n m i result }
{
    if i < m {
        let from = layout::streams_from(n) + i * (n + 4);
        let end = from + (n + 4);
        return stream_of(&s[from..end], n);
    }
    Stream {
        d: space::vector::ZERO,
        kind: 0,
        rule: 0,
        a: 0,
        b: 0,
    }
}

// Row i of the matrices, or zeros where i is over k. (Beside `stream_or`, type, place and width are others: one function would have to be handed all three.)
fn row_or(s: &[u8], n: usize, k: usize, m: usize, i: usize) -> Vector
    requires { (n ≤ 4) × (k ≤ 2) × (m ≤ 4) × (total_of 1 n k m ≤ length s.now) }
    ensures { RowAt s.now n k m i result }
{
    if i <= k {
        let from = layout::matrices_from(n, m) + i * n;
        let end = from + n;
        return vector_of(&s[from..end]);
    }
    space::vector::ZERO
}

// A stream: d, kind, rule, a, b.
fn stream_of(l: &[u8], n: usize) -> Stream
    requires { (n ≤ 4) × (length l.now ≡ n + 4) }
    ensures { StreamIn n l.now result }
{
    let d = vector_of(&l[..n]);
    Stream {
        d,
        kind: l[n],
        rule: l[n + 1],
        a: l[n + 2],
        b: l[n + 3],
    }
}

// The bounds: l at the even places, u at the odd ones.
fn bounds_of(l: &[u8]) -> Bounds
    ensures { (n : ℕ) → n ≤ 4 → length l.now ≡ 2 * n → BoxIn n l.now result }
{
    let low = entries_at(l, 0, 2, 4, 6);
    let high = entries_at(l, 1, 3, 5, 7);
    Bounds { low, high }
}

// A vector: as many entries as there are bytes, the others 0.
fn vector_of(l: &[u8]) -> Vector
    requires { length l.now ≤ 4 }
    ensures { VectorIn (length l.now) l.now result }
{
    entries_at(l, 0, 1, 2, 3)
}

// The entries of the bytes at four places.
fn entries_at(l: &[u8], p: usize, q: usize, t: usize, u: usize) -> Vector
    ensures { EntriesAt l.now p q t u result }
{
    Vector {
        x0: entry_at(l, p),
        x1: entry_at(l, q),
        x2: entry_at(l, t),
        x3: entry_at(l, u),
    }
}

// The entry of the byte at i, 0 past the end.
fn entry_at(l: &[u8], i: usize) -> i64
    ensures { EntryAt l.now i result }
{
    if i < l.len() {
        layout::entry_of(l[i])
    } else {
        0
    }
}
