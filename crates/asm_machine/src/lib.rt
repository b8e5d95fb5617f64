//! The assembly machine over a linked program: what it reads of the program, its first state, its steps, and where its blocks stand.
#![tactic(auto)]

pub mod executable;
pub mod machine;
mod variables;
