//! The fault that is answered where an image does not match.

use crate::owner::Owner;
use asm_syntax::name::Name;
use asm_syntax::rule::Rule;

/// The first place that fails. Unit and name are `-` where there is none.
#[derive(Debug, Drop)]
pub struct Fault {
    pub rule: Rule,
    pub unit: Name,
    pub name: Name,
    /// From the address of what is named, or an address where nothing is named.
    pub offset: u32,
    /// Which part of the rule fails, or the number of a table's word.
    pub item: u32,
    pub wanted: u32,
    pub found: u32,
    /// Of two ranges that meet, the owner of the lower one.
    pub other: Option<Owner>,
}
