// A number of each stream, gathered into an array.
ghost use Rattle.std.specs.Prelude.{ℕ, ◌<◌, ◌≤◌, get_or};

// What a function answers for each of m streams. (Four with m beside: there is no heap.)
pub fn gathered<F: Fn(u8) -> u32>(m: u8, incoming: F) -> [u32; 4]
    requires few { m ≤ 4 }
    requires callable { (s : ℕ) → s < m → F.pre incoming s }
    ensures { (s : ℕ) → s < m → F.post incoming s (get_or result s 0) }
{
    let mut got = [0; 4];
    for s in 0..m {
        got[usize::from(s)] = incoming(s);
    }
    got
}
