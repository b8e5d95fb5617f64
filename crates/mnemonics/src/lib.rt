//! The mnemonics of assembly dumps, in one table, and the form of instruction that each selects.
#![tactic(auto)]

mod form;
mod table;

pub use form::{Form, JumpForm, PseudoForm};
pub use table::mnemonics;
