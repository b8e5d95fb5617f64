//! What a step answers.

use asm_mem::value::Val;

/// Why a step is undefined. Numbered from 1 in the order of the variants.
#[derive(Clone, Copy, Debug, PartialEq, Eq, Drop)]
pub enum Why {
    /// No instruction stands at the place.
    End,
    /// A load or store where no access is defined.
    Access,
    /// A branch on a bit that is no word.
    Bit,
    /// bdnz where CTR is no word.
    Count,
    /// A jump to what is no target.
    Target,
    /// An argument that no external function can take.
    Argument,
    /// The end where r3 is no word.
    Final,
    /// A division without a result.
    Divide,
    Trap,
    /// A frame that is freed and is not the newest, or that is not as it was made.
    Frame,
    /// A table without such a label.
    Table,
    /// A buffer that is not there.
    Buffer,
}

/// A call of an external function: its key, how many values its arguments have, and the values. Those that are not used
/// are Undef.
#[derive(Clone, Copy, Debug, PartialEq, Eq, Drop)]
pub struct AsmEvent {
    pub number: u32,
    pub count: u8,
    pub vals: [Val; 8],
}

/// The answer of a step. All but `Went` and `Called` leave the state as before.
#[derive(Clone, Copy, Debug, PartialEq, Eq, Drop)]
pub enum Asm {
    Went,
    Called(AsmEvent),
    /// With the word of r3.
    Ended(u32),
    /// No reply was left.
    Starved,
    Undefined(Why),
    /// Want of memory, where a frame is made.
    Memory,
}
