//! The symbols of an image in the order of their names.
#![tactic(auto)]

pub mod index;
pub mod steps;
