// The tables of a job.

#![tactic(auto)]

// Where an entry stands, the point before one, and the work at one point.
pub mod table;
// The row of one stream, as a part of the table.
pub mod rows;
