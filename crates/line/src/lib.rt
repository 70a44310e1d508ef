// The printed line of a verdict, made in a lent buffer.

#![tactic(auto)]

// The whole line.
pub mod write;
// What is said past the first number.
pub mod said;
