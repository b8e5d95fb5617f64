//! Why a text is no layout.

ghost use Rattle.std.specs.Prelude.{◌≡◌};

use asm_syntax::path::Path;

/// The first error of a text that is no layout, in the order in which layouts are read.
#[derive(Debug, Drop)]
pub enum LayoutError {
    NotJson,
    Missing(Path),
    WrongKind(Path),
    OutOfRange(Path),
    UnknownWord(Path),
    Version(Path),
    /// The ends of a range are in the wrong order or outside their bounds, or the stack is too small.
    RangeOrder(Path),
    /// The numbers of two ranges that meet: the least second one, and then the least first one. The stack is 0; then come
    /// the areas, the foreign ranges and the stop point.
    RangeMeets(u32, u32),
    Unaligned(Path),
    Memory,
    /// More than so many items, or bytes of the stack.
    Limit(Path, u32),
}

impl LayoutError {
    ghost use Rattle.layout_file.specs.Errors.{number_of};

    /// The number by which reports name the error.
    pub fn number(&self) -> u32
        ensures { result ≡ number_of self.now }
    {
        match self {
            LayoutError::NotJson => 1,
            LayoutError::Missing(_) => 2,
            LayoutError::WrongKind(_) => 3,
            LayoutError::OutOfRange(_) => 4,
            LayoutError::UnknownWord(_) => 5,
            LayoutError::Version(_) => 6,
            LayoutError::RangeOrder(_) => 7,
            LayoutError::RangeMeets(..) => 8,
            LayoutError::Unaligned(_) => 9,
            LayoutError::Memory => 10,
            LayoutError::Limit(..) => 11,
        }
    }
}
