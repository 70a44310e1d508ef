// The checking program: reads a job from standard input and prints the line of its verdict.

#![tactic(auto)]

ghost use Rattle.std.specs.Prelude.{◌≤◌, IfOk, length};

use std::io;
use std::io::{Read, Write};

fn main(rt: HostRuntime) -> io::Result<()> {
    // The longest job, and a byte more, by which a longer input is refused. (Fixed memory, this buffer and the next: there is no heap.)
    let mut input = [0u8; 69];
    let got = read_full(&mut rt.stdin(), &mut input)?;
    let mut out = [0u8; line::write::LONGEST];
    let length = calls::line_of_bytes(&mut out, &input[..got]);
    rt.stdout().write_all(&out[..length])
}

// Reads until the buffer is full or the input ends, and says how many bytes were read.
fn read_full<R: Read>(from: &mut R, into: &mut [u8]) -> io::Result<usize>
    ensures { IfOk result (λ n. n ≤ length into.new) }
{
    let mut got = 0;
    // Each turn reads a byte at least, or is the last.
    for _ in 0..into.len() {
        let more = from.read(&mut into[got..])?;
        if more == 0 {
            break;
        }
        got += more;
    }
    Ok(got)
}
