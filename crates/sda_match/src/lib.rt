//! How the word of an instruction with a small-data constant differs from it.
#![tactic(auto)]

pub mod area;
pub mod diff;
pub mod matching;
pub mod word;
