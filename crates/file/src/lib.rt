// The job's file, put into a lent buffer part by part: header, box, streams, matrices. Each part answers the place where the next one starts.

#![tactic(auto)]

ghost use Rattle.std.specs.Prelude.{◌≡◌, ◌≤◌};
ghost use Rattle.job.specs.Limits.{Acceptable};
ghost use Rattle.layout.specs.Layout.{InBytes, header_of, box_bytes, streams_bytes, matrix_bytes, stream_bytes, vector_bytes, file_of};
ghost use Rattle.buffer.specs.Put.{Fits, Put};

use job::record::{Job, Stream};
use space::vector::Vector;

// The job's file at the front, and the total.
pub fn put_job(buf: &mut [u8], j: Job) -> usize
    requires { Acceptable j × Fits buf.old 0 (file_of j) }
    ensures { Put buf.old 0 (file_of j) result buf.new }
{
    let sides = put_header(buf, 0, j);
    let streams = put_box(buf, sides, j);
    let matrices = put_streams(buf, streams, j);
    put_matrices(buf, matrices, j)
}

// The header. (Buffer and place are handed on one by one here: the prover follows no buffer that a struct carries by value.)
fn put_header(buf: &mut [u8], at: usize, j: Job) -> usize
    requires { Acceptable j × Fits buf.old at (header_of 1 j.n j.k j.m) }
    ensures { Put buf.old at (header_of 1 j.n j.k j.m) result buf.new }
{
    let header = layout::header_of(j.n, j.k, j.m);
    buffer::put_bytes(buf, at, &header)
}

// The box: l, u for each dimension.
fn put_box(buf: &mut [u8], at: usize, j: Job) -> usize
    requires { Acceptable j × Fits buf.old at (box_bytes 1 j) }
    ensures { Put buf.old at (box_bytes 1 j) result buf.new }
{
    let b = j.bounds;
    let l = vector_bytes(b.low);
    let u = vector_bytes(b.high);
    let sides = [l[0], u[0], l[1], u[1], l[2], u[2], l[3], u[3]];
    let size = 2 * usize::from(j.n);
    buffer::put_bytes(buf, at, &sides[..size])
}

// The streams, one after the other.
fn put_streams(buf: &mut [u8], at: usize, j: Job) -> usize
    requires { Acceptable j × Fits buf.old at (streams_bytes 1 j) }
    ensures { Put buf.old at (streams_bytes 1 j) result buf.new }
{
    let mut next = at;
    for i in 0..j.m {
        next = put_stream(buf, next, j.n, job::record::stream_at(j, i));
    }
    next
}

// H, then each row of S. (Beside `put_streams`, what is put and how many are others; a closure for it would have to lend the buffer on.)
fn put_matrices(buf: &mut [u8], at: usize, j: Job) -> usize
    requires { Acceptable j × Fits buf.old at (matrix_bytes 1 j) }
    ensures { Put buf.old at (matrix_bytes 1 j) result buf.new }
{
    let mut next = at;
    for i in 0..j.k + 1 {
        next = put_vector(buf, next, j.n, job::record::row_at(j, i));
    }
    next
}

// A stream: d, kind, rule, a, b.
fn put_stream(buf: &mut [u8], at: usize, n: u8, s: Stream) -> usize
    requires { (n ≤ 4) × InBytes s.d × Fits buf.old at (stream_bytes 1 n s) }
    ensures { Put buf.old at (stream_bytes 1 n s) result buf.new }
{
    let d = s.d;
    let next = put_vector(buf, at, n, d);
    let rest = [s.kind, s.rule, s.a, s.b];
    buffer::put_bytes(buf, next, &rest)
}

// The first n entries of a vector.
fn put_vector(buf: &mut [u8], at: usize, n: u8, v: Vector) -> usize
    requires { (n ≤ 4) × InBytes v × Fits buf.old at (vector_bytes 1 n v) }
    ensures { Put buf.old at (vector_bytes 1 n v) result buf.new }
{
    let bytes = vector_bytes(v);
    let size = usize::from(n);
    buffer::put_bytes(buf, at, &bytes[..size])
}

// The bytes of all four entries.
fn vector_bytes(v: Vector) -> [u8; 4]
    requires { InBytes v }
    ensures { result ≡ vector_bytes 1 4 v }
{
    [
        layout::byte_of(v.x0),
        layout::byte_of(v.x1),
        layout::byte_of(v.x2),
        layout::byte_of(v.x3),
    ]
}
