// n entries in four places: the limits and the rules of a record are those of the n entries and k place rows that it uses. This crate holds no code, only the theorem.

#![tactic(auto)]
