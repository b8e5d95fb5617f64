//! Runs of the assembly and of an image that matches, side by side.
#![tactic(auto)]

pub mod laws;
