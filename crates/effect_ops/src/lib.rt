//! The operations of instructions on words, and the rows of the instruction table, as code.
#![tactic(auto)]

pub mod calls;
pub mod operations;
pub mod rows;
