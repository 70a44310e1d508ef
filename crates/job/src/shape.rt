// Refusal 3 of a record: its counts are in range, and every place that is not used is 0.
ghost use Rattle.std.specs.Prelude.{◌≡◌, ◌+◌, ◌≤◌, true};
ghost use Rattle.space.specs.Numbers.{Tells};
ghost use Rattle.job.specs.Record.{Firsts, Others, streams_of, rows_of};
ghost use Rattle.job.specs.Limits.{Unused, Idle, Shaped};

use crate::record::{Job, Stream};
use space::vector::Vector;

// 3: the counts are in range, and every unused place is 0.
pub fn is_shaped(j: Job) -> bool
    ensures { Tells (Shaped j) result }
{
    are_counts(j.n, j.k, j.m)
        && is_unused(j.bounds.low, j.n)
        && is_unused(j.bounds.high, j.n)
        && streams_shaped(j)
        && rows_shaped(j)
}

// Are n, k and m in range?
fn are_counts(n: u8, k: u8, m: u8) -> bool
    ensures { Tells (((1 ≤ n) × (n ≤ 4)) × (((1 ≤ k) × (k ≤ 2)) × ((1 ≤ m) × (m ≤ 4)))) result }
{
    1 <= n && n <= 4 && 1 <= k && k <= 2 && 1 <= m && m <= 4
}

// Are the coordinates from n on 0?
fn is_unused(v: Vector, n: u8) -> bool
    ensures { Tells (Unused n v) result }
{
    (0 < n || v.x0 == 0) && (1 < n || v.x1 == 0) && (2 < n || v.x2 == 0) && (3 < n || v.x3 == 0)
}

// Is every place of the stream 0?
fn is_idle(s: Stream) -> bool
    ensures { Tells (Idle s) result }
{
    is_unused(s.d, 0) && s.kind == 0 && s.rule == 0 && s.a == 0 && s.b == 0
}

// Is a stream that is used 0 from coordinate n on, and one that is not used 0 throughout?
fn stream_shaped(s: Stream, n: u8, used: bool) -> bool
    ensures { Tells ((used ≡ true → Unused n s.d) × ((used ≡ true → ⊥) → Idle s)) result }
{
    if used { is_unused(s.d, n) } else { is_idle(s) }
}

// The same of every stream.
fn streams_shaped(j: Job) -> bool
    ensures { Tells (Firsts (λ (s : Stream). Unused j.n s.d) j.m (streams_of j) × Others Idle j.m (streams_of j)) result }
{
    stream_shaped(j.s0, j.n, 0 < j.m)
        && stream_shaped(j.s1, j.n, 1 < j.m)
        && stream_shaped(j.s2, j.n, 2 < j.m)
        && stream_shaped(j.s3, j.n, 3 < j.m)
}

// Is a row that is used 0 from coordinate n on, and one that is not used 0 throughout? (Beside `stream_shaped`: a stream that is not used has more than a vector to ask.)
fn row_shaped(v: Vector, n: u8, used: bool) -> bool
    ensures { Tells ((used ≡ true → Unused n v) × ((used ≡ true → ⊥) → Unused 0 v)) result }
{
    if used {
        is_unused(v, n)
    } else {
        is_unused(v, 0)
    }
}

// The same of every row. (Beside `streams_shaped`, as `row_shaped` beside `stream_shaped`.)
fn rows_shaped(j: Job) -> bool
    ensures { Tells (Firsts (Unused j.n) (1 + j.k) (rows_of j) × Others (Unused 0) (1 + j.k) (rows_of j)) result }
{
    row_shaped(j.time, j.n, true)
        && row_shaped(j.row0, j.n, 1 <= j.k)
        && row_shaped(j.row1, j.n, 2 <= j.k)
}
