//! Linked programs, the addresses of their keys, and when an image matches them, as definitions.
#![tactic(auto)]

pub mod fault;
pub mod key;
pub mod link_error;
pub mod owner;
