//! The words of a command line as a command, and the files that a command reads.
//!
//! Nothing here takes memory.
#![tactic(auto)]

pub mod command;
pub mod file;
mod number;
pub mod words;
