//! Whether a variable stands in an image at an address: its bytes, its alignment, its area and the flags of its segments.
#![tactic(auto)]

mod bytes;
pub mod fault;
pub mod matching;
mod place;
