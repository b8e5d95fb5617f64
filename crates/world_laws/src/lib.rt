//! From the facts of a match, which speak of keys, to the world of the two machines, which speak of numbers of functions and variables.
#![tactic(auto)]

pub mod laws;
