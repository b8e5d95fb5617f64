//! The places of an image that are tested key by key, pass by pass, and the claims of what stands there.
#![tactic(auto)]

pub mod bound_program;
mod claims;
pub mod entry;
pub mod externals;
pub mod fault;
pub mod functions;
mod seen_addresses;
mod unit_addresses;
pub mod variables;
