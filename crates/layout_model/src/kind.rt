//! Kinds of areas.

/// What an area may have.
#[derive(Clone, Copy, Debug, PartialEq, Eq, Drop)]
pub enum AreaKind {
    Code,
    /// Constant data.
    Fixed,
    /// Data that the program may write.
    Writable,
    /// Small data about the base in r13 (PowerPC EABI, "Small Data Area").
    Sda13,
    /// Small constant data about the base in r2.
    Sda2,
    /// Data about address 0.
    Sda0,
}
