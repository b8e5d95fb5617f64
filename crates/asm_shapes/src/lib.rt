//! The shapes of functions, signatures and units: which a dump may have.
#![tactic(auto)]

mod function;
mod labels;
mod operands;
mod signature;
mod unit;

pub use function::{function_fault, valid_function};
pub use labels::IndexedCode;
pub use operands::{frame_fits, instr_in_range, plain_in_range};
pub use signature::{first_register, valid_arguments, valid_buffers, valid_sig};
pub use unit::unit_fits;
