//! Steps that make and free frames: the image follows each of them.
#![tactic(auto)]

pub mod laws;
