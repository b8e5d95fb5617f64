//! What the readers of JSON profiles share: the words in which a profile is defined, and the calls that read them.
//!
//! A profile is a definition over trees of `serde_json` that gives a value or the first fault with its place. A type that is
//! read in one way has [`Tree`]; what takes a parameter is a function. A fault's path is built from its end, so that
//! nothing is allocated where there is none.
#![tactic(auto)]

pub mod address;
pub mod array;
pub mod fault;
pub mod name;
pub mod number;
pub mod profile;
pub mod taken;
pub mod text;
pub mod tree;
