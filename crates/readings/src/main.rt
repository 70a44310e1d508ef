// Runs byte strings through the reader and, where they are a job, back through the writer. What it prints is held against the stored output.

#![tactic(auto)]

use job::record::Job;
use std::io::{self, Write};

// The 30 bytes of document 01: box 0..1 squared, one local stream along (0,1), H (1,2), S (1,2).
const THIRTY: [u8; 30] = [
    1, 0, 2, 1, 1, 0, 16, 0, 20, 0, 26, 0, 30, 0, 0, 0, 0, 1, 0, 1, 0, 1, 1, 0, 0, 0, 1, 2, 1, 2,
];

// Writes a text.
fn say<W: Write>(out: &mut W, text: &[u8]) -> io::Result<()> {
    out.write_all(text)
}

// Whether writing the job gives the bytes that it was read from. (Fixed memory: there is no heap.)
fn is_written_back(j: Job, s: &[u8]) -> bool {
    let mut buffer = [170u8; 80];
    match writer::write(&mut buffer, j) {
        Ok(total) => front(&buffer, total) == s,
        Err(_) => false,
    }
}

// The first n bytes, or all where there are not so many. (`runs` has this and `say` too: two programs share no crate.)
fn front(s: &[u8], n: usize) -> &[u8] {
    &s[..n.min(s.len())]
}

// One line: the name, and what the reader answers.
fn tell<W: Write>(out: &mut W, name: &[u8], s: &[u8]) -> io::Result<()> {
    say(out, name)?;
    match reader::reading::read(s) {
        Err(why) => {
            let number = u8::from(why);
            writeln!(out, ": refused {number}")
        }
        Ok(j) => {
            if is_written_back(j, s) {
                say(out, b": a job, and written back the same\n")
            } else {
                say(out, b": a job, and written back otherwise\n")
            }
        }
    }
}

// The 30 bytes with one of them changed.
fn changed(i: usize, b: u8) -> [u8; 30] {
    let mut s = THIRTY;
    if let Some(byte) = s.get_mut(i) {
        *byte = b;
    }
    s
}

// The 30 bytes with the box 0..first by 0..second.
fn boxed(first: u8, second: u8) -> [u8; 30] {
    let mut s = THIRTY;
    s[17] = first;
    s[19] = second;
    s
}

// Too few bytes and too many.
fn lengths<W: Write>(out: &mut W) -> io::Result<()> {
    let s = THIRTY;
    tell(out, b"the 30 bytes", &s)?;
    tell(out, b"no byte", front(&s, 0))?;
    tell(out, b"15 bytes", front(&s, 15))?;
    tell(out, b"the header alone", front(&s, 16))?;
    tell(out, b"29 bytes", front(&s, 29))?;
    // the longest job, and a byte more: four dimensions, two place rows, four streams
    let l =
        b"\x01\0\x04\x02\x04\0\x10\0\x18\0\x38\0\x44\0\0\0\0\x01\0\x01\0\x01\xff\x01\x01\0\0\0\0\0\0\0\0\x01\0\0\x01\x01\0\x03\0\0\x01\0\0\x02\x01\x01\0\0\0\x01\0\0\0\0\x01\x01\x01\x01\x01\0\0\0\0\x01\0\x7f\0";
    tell(out, b"the longest job, 68 bytes", front(l, 68))?;
    tell(out, b"with one byte more", l)?;
    tell(out, b"with one byte less", front(l, 67))
}

// What is wrong in a header.
fn headers<W: Write>(out: &mut W) -> io::Result<()> {
    tell(out, b"form 0", &changed(0, 0))?;
    tell(out, b"form 2", &changed(0, 2))?;
    tell(out, b"form 257", &changed(1, 1))?;
    tell(out, b"n 0", &changed(2, 0))?;
    tell(out, b"n 5", &changed(2, 5))?;
    tell(out, b"k 0", &changed(3, 0))?;
    tell(out, b"k 3", &changed(3, 3))?;
    tell(out, b"m 0", &changed(4, 0))?;
    tell(out, b"m 5", &changed(4, 5))?;
    tell(out, b"byte 5 not zero", &changed(5, 1))?;
    tell(out, b"byte 14 not zero", &changed(14, 1))?;
    tell(out, b"byte 15 not zero", &changed(15, 1))?;
    tell(out, b"n 1 with the offsets of 2", &changed(2, 1))?;
    tell(out, b"offset of the box 17", &changed(6, 17))?;
    tell(out, b"offset of the streams 21", &changed(8, 21))?;
    tell(out, b"offset of the matrices 27", &changed(10, 27))?;
    tell(out, b"total 31", &changed(12, 31))?;
    tell(out, b"total 30 + 256", &changed(13, 1))
}

// What is wrong in a box.
fn bounds<W: Write>(out: &mut W) -> io::Result<()> {
    tell(out, b"bound -128", &changed(16, 128))?;
    tell(out, b"bound -127", &changed(16, 129))?;
    tell(out, b"0..-1", &changed(17, 255))?;
    tell(out, b"0..31 by 0..31", &boxed(31, 31))?;
    tell(out, b"0..31 by 0..32", &boxed(31, 32))
}

// What is wrong in a stream or a row.
fn streams<W: Write>(out: &mut W) -> io::Result<()> {
    tell(out, b"d (0,2)", &changed(21, 2))?;
    tell(out, b"d (0,-1)", &changed(21, 255))?;
    tell(out, b"d (0,0)", &changed(21, 0))?;
    tell(out, b"d (15,1)", &changed(20, 15))?;
    tell(out, b"d (16,1)", &changed(20, 16))?;
    tell(out, b"d (-1,1)", &changed(20, 255))?;
    tell(out, b"kind 2", &changed(22, 2))?;
    tell(out, b"rule 3", &changed(23, 3))?;
    tell(out, b"rule 1, sources 0 and 0", &changed(23, 1))?;
    tell(out, b"rule 0, source a 1", &changed(24, 1))?;
    tell(out, b"H entry -128", &changed(26, 128))?;
    tell(out, b"S entry -128", &changed(29, 128))?;
    tell(out, b"S entry -127", &changed(29, 129))
}

fn main(rt: HostRuntime) -> io::Result<()> {
    let mut out = rt.stdout();
    lengths(&mut out)?;
    headers(&mut out)?;
    bounds(&mut out)?;
    streams(&mut out)
}
