//! Why units do not link, and why keys have no address.

ghost use Rattle.std.specs.Prelude.{◌≡◌};

use asm_syntax::name::Name;

/// The first test of linking that fails. The number is the unit's. Numbered from 1 in the order of the variants.
#[derive(Debug, Drop)]
pub enum LinkError {
    /// The name of an earlier unit.
    UnitTwice(u32),
    /// A global name that an earlier unit defines.
    DefinedTwice(u32, Name),
    /// A name that the unit refers to, and neither defines nor declares.
    Undeclared(u32, Name),
    /// An external whose signature differs from that of an earlier declaration.
    SigDiffers(u32, Name),
    /// No global function has the name of the entry.
    NoEntry,
    /// Want of memory.
    Memory,
    /// A variable with which the bytes of all variables pass `MOST_PROGRAM_VARIABLE_BYTES`.
    TooBig(u32, Name),
}

impl LinkError {
    ghost use Rattle.link_model.specs.LinkErrors.{number_of};

    /// The number of the variant, from 1 to 7.
    pub fn number(&self) -> u32
        ensures { result ≡ number_of self.now }
    {
        match self {
            LinkError::UnitTwice(_) => 1,
            LinkError::DefinedTwice(_, _) => 2,
            LinkError::Undeclared(_, _) => 3,
            LinkError::SigDiffers(_, _) => 4,
            LinkError::NoEntry => 5,
            LinkError::Memory => 6,
            LinkError::TooBig(_, _) => 7,
        }
    }
}

/// Why a key has no address. The first number is the key, the second how many candidates agree with its uses.
/// Numbered from 1 in the order of the variants.
#[derive(Clone, Copy, Debug, PartialEq, Eq, Drop)]
pub enum BindFault {
    NoSymbol(u32),
    NoneFits(u32),
    SeveralFit(u32, u32),
    /// Want of memory.
    Memory,
}

impl BindFault {
    ghost use Rattle.link_model.specs.BindFaults.{number_of};

    /// The number of the variant, from 1 to 4.
    pub fn number(&self) -> u32
        ensures { result ≡ number_of self.now }
    {
        match self {
            BindFault::NoSymbol(_) => 1,
            BindFault::NoneFits(_) => 2,
            BindFault::SeveralFit(_, _) => 3,
            BindFault::Memory => 4,
        }
    }
}
