//! Compilation units, written as JSON texts.
#![tactic(auto)]

mod external;
mod instr;
mod spelling;
mod tree;
mod types;
mod unit;
mod write;

pub use write::{
    unit_value, unit_value_2, valid_unit, write_unit, write_unit_2, written_units_read_back,
};
