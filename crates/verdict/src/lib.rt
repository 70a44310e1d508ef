// The verdict on a job.

#![tactic(auto)]

// Where a job puts a point, and the course of each stream.
pub mod course;
// The first difference at which two points share a cell, or two tokens collide.
pub mod walk;
// Precedence, hop, cell and link, each over all streams or all pairs.
mod rules;
// Cells, ticks and room.
mod extents;
// The verdict itself: accepted with its extent, or the first broken rule with its stream and its first pair.
pub mod judge;
// The verdict in the document's numbers.
pub mod numbers;
// The room count.
pub mod room;
