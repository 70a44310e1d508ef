// What the reader and the writer of a job file share: signed bytes, the offsets, the header.

#![tactic(auto)]

ghost use Rattle.std.specs.Prelude.{◌≡◌, ◌≤◌};
ghost use Rattle.layout.specs.Layout.{InByte, complement, streams_from, matrices_from, total_of, header_of};

// The signed entry that a byte holds, in two's complement.
pub fn entry_of(b: u8) -> i64
    ensures { InByte result × (complement 1 result ≡ b) }
{
    i64::from(b.cast_signed())
}

// The byte that holds an entry.
pub fn byte_of(z: i64) -> u8
    requires { InByte z }
    ensures { result ≡ complement 1 z }
{
    (z as i8).cast_unsigned()
}

// The offset of the streams. (n, k and m are asked one by one: a type of all three would ask of each function here more than it reads.)
pub fn streams_from(n: usize) -> usize
    requires { n ≤ 4 }
    ensures { result ≡ streams_from 1 n }
{
    16 + 2 * n
}

// The offset of the matrices.
pub fn matrices_from(n: usize, m: usize) -> usize
    requires { (n ≤ 4) × (m ≤ 4) }
    ensures { result ≡ matrices_from 1 n m }
{
    streams_from(n) + m * (n + 4)
}

// The total length.
pub fn total_of(n: usize, k: usize, m: usize) -> usize
    requires { (n ≤ 4) × (k ≤ 2) × (m ≤ 4) }
    ensures { result ≡ total_of 1 n k m }
{
    matrices_from(n, m) + (1 + k) * n
}

// The header.
pub fn header_of(n: u8, k: u8, m: u8) -> [u8; 16]
    requires { (n ≤ 4) × (k ≤ 2) × (m ≤ 4) }
    ensures { result ≡ header_of 1 n k m }
{
    let dimensions = usize::from(n);
    let streams = (streams_from(dimensions) as u16).to_le_bytes();
    let matrices = (matrices_from(dimensions, usize::from(m)) as u16).to_le_bytes();
    let total = (total_of(dimensions, usize::from(k), usize::from(m)) as u16).to_le_bytes();
    [
        1,
        0,
        n,
        k,
        m,
        0,
        16,
        0,
        streams[0],
        streams[1],
        matrices[0],
        matrices[1],
        total[0],
        total[1],
        0,
        0,
    ]
}
