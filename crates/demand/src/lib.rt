// Demand 3: the array computes what the loop computes; and the starred jobs as one table. This crate holds no code, only the theorems.

#![tactic(auto)]
