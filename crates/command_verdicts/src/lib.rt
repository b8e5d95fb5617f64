//! The verdict on the words of a command, by the files that a store holds under them.
#![tactic(auto)]

mod conclude;
mod decision;
mod read;
pub mod stop;

pub use decision::decide;
