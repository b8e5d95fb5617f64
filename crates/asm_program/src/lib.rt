//! The tests of linking, and the keys that units make.
#![tactic(auto)]

pub mod codes;
pub mod declared;
pub mod entry;
pub mod firsts;
pub mod keys;
pub mod names;
pub mod numbers;
pub mod repeats;
pub mod sizes;
pub mod standing;
pub mod units;
pub mod uses;
