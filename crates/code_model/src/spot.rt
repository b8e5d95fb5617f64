//! Where and how a definition fails.

use asm_syntax::rule::Rule;

/// A fault of a function or of a variable.
#[derive(Clone, Copy, Debug, PartialEq, Eq, Drop)]
pub struct Spot {
    pub rule: Rule,
    /// From the address of the function or variable.
    pub offset: u32,
    /// Which part of the rule fails, or the number of a table's word.
    pub item: u32,
    pub wanted: u32,
    pub found: u32,
}
