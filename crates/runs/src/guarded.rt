// Parts of tables, and what stands in them before a run.

// What stands in every value table and every place before a run.
pub const GUARD: u32 = 7;

// The first n values, or all where there are not so many.
pub fn front(s: &[u32], n: usize) -> &[u32] {
    &s[..n.min(s.len())]
}

// The same, to be written to. (One function cannot lend both ways.)
pub fn part(s: &mut [u32], n: usize) -> &mut [u32] {
    let end = n.min(s.len());
    &mut s[..end]
}

// The values from place n on, or none where there are not so many.
pub fn rest(s: &[u32], n: usize) -> &[u32] {
    &s[n.min(s.len())..]
}

// Does every place hold the guard?
pub fn is_guarded(s: &[u32]) -> bool {
    s.iter().all(|x| *x == GUARD)
}
