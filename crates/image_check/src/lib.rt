//! Whether an image matches linked units: the account of all that it loads, or the first place that fails.
#![tactic(auto)]

pub mod binding;
pub mod checking;
mod overlap;
mod owners;
mod placing;
mod strays;
