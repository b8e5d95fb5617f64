//! The memory of the assembly machine: values, and blocks of cells that are made, freed, loaded, stored and compared.
#![tactic(auto)]

mod block;
pub mod blocks;
pub mod cell;
mod slot;
pub mod value;
