//! What an instruction leaves open in its word until it is linked.

use ppc_decode::machine::Machine;

/// What the linker fills in a word (PowerPC EABI, "Relocation").
#[derive(Clone, Copy, Debug, PartialEq, Eq, Drop)]
pub enum Gap {
    /// Nothing.
    Closed,
    /// The low half is this one (`@l` and `@ha`).
    Half(u32),
    /// A base register and the displacement from it to this address (`@sda21`).
    SmallData(u32),
    /// A displacement of 16 bits to this address.
    Near(u32),
    /// A displacement of 26 bits to this address.
    Far(u32),
    /// Any low half.
    Free,
}

/// By what a word is judged: what the instruction leaves open in it, its instruction with what the word itself has there,
/// and its instruction with what belongs there.
#[derive(Clone, Copy, Debug, PartialEq, Eq, Drop)]
pub struct Shape {
    pub gap: Gap,
    pub found: Machine,
    pub right: Machine,
}
