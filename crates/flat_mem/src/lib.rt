//! The memory of the machine of an image: segments lent from the file or owned, and the stack, with loads, stores and fetches.
#![tactic(auto)]

pub mod memory;
mod region;
