//! Values under the effects of instructions: operations, registers that hold values, loads and stores by form, and the row of
//! each plain instruction.
#![tactic(auto)]

pub mod accesses;
pub mod actions;
pub mod operands;
pub mod registers;
