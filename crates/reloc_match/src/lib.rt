//! How many words an instruction has, how one word differs from its instruction, and whether a word agrees with a symbol's address.
#![tactic(auto)]

pub mod diff;
pub mod fields;
pub mod matching;
pub mod shape;
pub mod small_data;
pub mod word;
