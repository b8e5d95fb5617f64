//! The first states of the two machines, and what an image that matches does from them.
#![tactic(auto)]

pub mod laws;
