// The array of a job, and the loop that it is held against.

#![tactic(auto)]

// A run of all ticks, and a single tick.
pub mod run;
// One tick: the arrivals, then the work.
pub mod tick;
// A number of each stream, gathered into an array.
mod gather;
// The arrivals of a tick, each stream's band lent on by itself.
mod arrive;
// The work of a tick, and the storing of its values.
mod work;
// The plain loop nest.
pub mod loops;
// The point worked in a tick at a cell.
pub mod lookup;
