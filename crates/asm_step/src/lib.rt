//! One step of the assembly machine over what it reads of a linked program: plain instructions, branches, tables, frames and calls.
#![tactic(auto)]

pub mod answer;
mod buffers;
pub mod executable;
pub mod machine;
