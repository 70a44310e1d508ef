// The verdict on a record as the prover works it out from the definitions. This crate holds no code; the starred jobs and the line of the 30 bytes are shown by it.

#![tactic(auto)]
