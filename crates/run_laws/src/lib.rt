//! Runs of the assembly machine from related states, which the image follows.
#![tactic(auto)]

pub mod laws;
