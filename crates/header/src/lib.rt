// The header of a job file: refusals 1 to 5.

#![tactic(auto)]

ghost use Rattle.std.specs.Prelude.{◌≡◌, ◌<◌};
ghost use Rattle.space.specs.Numbers.{Tells};
ghost use Rattle.job.specs.Refusals.{First, number_in};
ghost use Rattle.header.specs.Header.{at, pair_at, Counted, Placed, head_checks};

use job::refusal::Refusal;

// The first check of the header that the bytes do not pass, or none.
pub fn check(s: &[u8]) -> Result<(), Refusal>
    ensures { First (head_checks s.now) (number_in result) }
{
    if s.len() < 16 {
        return Err(Refusal::Short);
    }
    if pair(s, 0) != 1 {
        return Err(Refusal::Form);
    }
    if !is_counted(s) {
        return Err(Refusal::Counts);
    }
    if !is_placed(s) {
        return Err(Refusal::Offsets);
    }
    if s.len() != pair(s, 12) {
        return Err(Refusal::Length);
    }
    Ok(())
}

// 3: n, k and m are in range, and the zero bytes are zero.
fn is_counted(s: &[u8]) -> bool
    ensures { Tells (Counted s.now) result }
{
    let n = byte(s, 2);
    let k = byte(s, 3);
    let m = byte(s, 4);
    1 <= n && n <= 4 && 1 <= k && k <= 2 && 1 <= m && m <= 4 && byte(s, 5) == 0 && pair(s, 14) == 0
}

// 4: the offsets and the total are those of the formulas.
fn is_placed(s: &[u8]) -> bool
    requires { Counted s.now }
    ensures { Tells (Placed s.now) result }
{
    let n = byte(s, 2);
    let k = byte(s, 3);
    let m = byte(s, 4);
    pair(s, 6) == 16
        && pair(s, 8) == layout::streams_from(n)
        && pair(s, 10) == layout::matrices_from(n, m)
        && pair(s, 12) == layout::total_of(n, k, m)
}

// The little-endian pair at i. (A sum and no `from_le_bytes`: a byte past the end is 0.)
fn pair(s: &[u8], i: usize) -> usize
    requires { i < 16 }
    ensures { result ≡ pair_at s.now i }
{
    byte(s, i) + 256 * byte(s, i + 1)
}

// The byte at i, 0 past the end.
pub fn byte(s: &[u8], i: usize) -> usize
    ensures { (result ≡ at s.now i) × (result < 256) }
{
    if i < s.len() { usize::from(s[i]) } else { 0 }
}
