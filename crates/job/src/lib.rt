// The job as a record, and what it must keep.

#![tactic(auto)]

// The record: streams and rows by number.
pub mod record;
// Refusal 3: counts in range, unused places 0.
pub mod shape;
// Why bytes or a record are refused: 1 to 8.
pub mod refusal;
// The first limit that a record breaks: 3, 6, 7, 8.
pub mod limits;
// Replies in numbers.
pub mod numbers;
