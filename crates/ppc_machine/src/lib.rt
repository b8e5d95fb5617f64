//! The flat machine: a PowerPC that runs the words of its memory, and calls external functions by replies.
#![tactic(auto)]

pub mod actions;
pub mod calls;
pub mod cpu;
pub mod externals;
pub mod registers;
