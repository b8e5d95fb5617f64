//! Why a variable does not stand at an address.

/// Numbered from 1 in the order of the variants.
#[derive(Clone, Copy, Debug, PartialEq, Eq, Drop)]
pub enum DataFault {
    /// The offset of a byte, what belongs there, and what is loaded there.
    Bytes(u32, u8, Option<u8>),
    /// The address is no multiple of the alignment.
    Align,
    /// No area of a right kind has the whole variable.
    Area,
    /// The variable is written, and a byte of it is in no segment with PF_W.
    Flags,
}
