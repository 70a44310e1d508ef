// Input tables, for up to 81 values: three streams of 27 points.

// Stands where a point before it sends the value, so that no input is read.
const UNREAD: u32 = 1000;

// The numbers from first on, modulo 2^32.
pub fn numbers(first: u32) -> [u32; 81] {
    let mut t = [0u32; 81];
    for (place, k) in t.iter_mut().zip(0..81) {
        *place = first.wrapping_add(k);
    }
    t
}

// The inputs of the cube, point (i,j,k) at place 9i + 3j + k of its stream: a[i][k] where j is 0, b[k][j] where i is 0, x where k is 0.
pub fn matrices(x: u32) -> [u32; 81] {
    let text = b"271......828......182......312156495..................x..x..x..x..x..x..x..x..x..";
    let mut t = [0u32; 81];
    for (place, letter) in t.iter_mut().zip(text) {
        *place = meant(*letter, x);
    }
    t
}

// What a letter of that text stands for.
fn meant(letter: u8, x: u32) -> u32 {
    if letter == b'x' {
        return x;
    }
    if letter < b'0' {
        return UNREAD;
    }
    u32::from(letter - b'0')
}
