//! How a word differs.

use asm_syntax::rule::Rule;

/// The rule that a word fails, and what belongs there and what stands there: words, or for a branch the addresses that it leads to.
#[derive(Clone, Copy, Debug, PartialEq, Eq, Drop)]
pub struct Diff {
    pub rule: Rule,
    pub wanted: u32,
    pub found: u32,
}
