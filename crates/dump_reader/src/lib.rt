//! Compilation units and replies, read from JSON texts.
//!
//! The grammars are definitions over trees of `serde_json`, and give the value or the first fault with its path.
#![tactic(auto)]

mod branch;
mod buffer;
mod compilation;
mod constant;
mod error;
mod external;
mod function;
mod init;
mod instruction;
mod operands;
mod plain;
mod profile;
mod pseudo;
mod read;
mod reply;
mod shape;
mod variable;
mod words;

pub use error::DumpError;
pub use read::{read_replies, read_unit};
