// Machine instructions: their words, back and forth, and their text.
#![tactic(auto)]

pub mod decoding;
pub mod displacement;
pub mod encoding;
pub mod machine;
pub mod operand;
mod table;
pub mod text;
