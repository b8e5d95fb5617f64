//! What passes over a call of an external function: the registers of its arguments, and the bytes that it reads.
#![tactic(auto)]

pub mod arguments;
pub mod bytes;
