//! The verdict on a run, by the contents of its files.
#![tactic(auto)]

mod bound;
mod running;

pub use running::ran;

/// The word that each register which the first state of an image leaves open holds.
pub const FREE_WORD: u32 = 0xa5a5_a5a5;

/// Each byte of the stack at first, but for those of the root.
pub const FREE_BYTE: u8 = 0xa5;
