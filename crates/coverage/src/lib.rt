//! Claims of ranges of addresses, whether two of them meet, and what each loaded address belongs to.
#![tactic(auto)]

pub mod account;
pub mod claims;
mod kinds;
mod stretches;
pub mod sweep;
mod tally;
