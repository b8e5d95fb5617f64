//! ELF executables for 32-bit big-endian PowerPC as definitions: what bytes stand for, their tests, and what is loaded.
#![tactic(auto)]

pub mod cuts;
pub mod error;
pub mod flags;
pub mod symbol;
