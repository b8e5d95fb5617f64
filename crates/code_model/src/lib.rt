//! The words of instructions and of whole functions, as definitions: forms, spellings, addresses, and the tests of one function.
#![tactic(auto)]

pub mod gap;
pub mod spot;
