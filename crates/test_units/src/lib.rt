//! Units of tests, read from lines of text.
#![tactic(auto)]

pub mod lines;
mod rows;
