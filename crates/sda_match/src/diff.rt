//! How a word differs.

use asm_syntax::rule::Rule;

/// The rule that a word fails, the part of the rule, and what belongs there and what stands there: words, registers or addresses.
#[derive(Clone, Copy, Debug, PartialEq, Eq, Drop)]
pub struct SdaDiff {
    pub rule: Rule,
    pub item: u32,
    pub wanted: u32,
    pub found: u32,
}
