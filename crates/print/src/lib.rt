// Words and numbers, printed into a lent buffer.

#![tactic(auto)]

// A writer that holds the buffer and its place in it. (No `Display`: document 01 names a writer whose thin functions call covered ones on slice and number.)
pub mod line_writer;
// A word and a number, put at a place of a lent slice.
pub mod field;
// Decimal numbers.
pub mod numbers;
// The words of the lines.
pub mod words;
