//! The traces of a program and of an image that matches it agree.
#![tactic(auto)]

pub mod laws;
