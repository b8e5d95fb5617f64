//! Whether an image matches a layout and units, from their bytes.
#![tactic(auto)]

pub mod inputs;
pub mod judge;
