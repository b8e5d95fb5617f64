//! A set of addresses, in constant space.

ghost use Rattle.std.specs.Prelude.{◌≤◌, ◌^◌};

/// The addresses with this low half, if there is one, that are in a window, if there is one. A window may go over the end
/// of the address space.
#[derive(Clone, Copy, Debug, PartialEq, Eq, Drop)]
pub struct AddressSet {
    pub low: Option<u32>,
    /// There is no window.
    pub whole: bool,
    pub start: u32,
    pub size: u64,
    pub ghost small: { size ≤ 2 ^ 16 },
}
