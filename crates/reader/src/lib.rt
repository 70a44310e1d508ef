// The reader: job bytes to the job, or the refusal, 1 to 8.

#![tactic(auto)]

// The reply.
pub mod reading;
// What follows the header: box, streams and matrices.
mod body;
