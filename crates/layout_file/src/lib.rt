//! Layouts: what a program's address space has, from a JSON text.
#![tactic(auto)]

pub mod area;
pub mod error;
pub mod layout;
mod meeting;
mod pins;
mod read;
mod span;

pub use read::read_layout;
