// Why bytes are no executable that is accepted.
ghost use Rattle.std.specs.Prelude.{◌≡◌};

use thiserror::Error;

/// The first test of an image that fails. The first number is an offset in the file; `Limit` has the limit too.
#[derive(Clone, Copy, Debug, PartialEq, Eq, Error)]
pub enum ElfError {
    #[error("the file ends before the end of what is read at {0}")]
    Short(u32),
    #[error("byte {0} of the identification differs")]
    Ident(u32),
    #[error("the type at {0} is not ET_EXEC")]
    Kind(u32),
    #[error("the machine at {0} is not EM_PPC")]
    Machine(u32),
    #[error("the entry size at {0} differs")]
    EntrySize(u32),
    #[error("the program header at {0} asks for dynamic linking")]
    Dynamic(u32),
    #[error("the segment of the program header at {0} is out of range")]
    SegRange(u32),
    #[error("the segment of the program header at {0} meets an earlier one")]
    SegOverlap(u32),
    #[error("no section is a symbol table, of those named at {0}")]
    NoSymtab(u32),
    #[error("the section header at {0} is a second symbol table")]
    TwoSymtabs(u32),
    #[error("the symbol table of the section header at {0} is out of range")]
    SymRange(u32),
    #[error("the name of {0} does not end in the string table")]
    NameEnd(u32),
    #[error("what is counted at {0} is more than {1}")]
    Limit(u32, u32),
}

impl ElfError {
    ghost use Rattle.image_model.specs.Errors.{number_of, offset_of};

    /// The number of the variant, from 1 to 13.
    pub fn number(&self) -> u32
        ensures { result ≡ number_of self.now }
    {
        match self {
            ElfError::Short(_) => 1,
            ElfError::Ident(_) => 2,
            ElfError::Kind(_) => 3,
            ElfError::Machine(_) => 4,
            ElfError::EntrySize(_) => 5,
            ElfError::Dynamic(_) => 6,
            ElfError::SegRange(_) => 7,
            ElfError::SegOverlap(_) => 8,
            ElfError::NoSymtab(_) => 9,
            ElfError::TwoSymtabs(_) => 10,
            ElfError::SymRange(_) => 11,
            ElfError::NameEnd(_) => 12,
            ElfError::Limit(_, _) => 13,
        }
    }

    /// The offset in the file.
    pub fn offset(&self) -> u32
        ensures { result ≡ offset_of self.now }
    {
        match self {
            ElfError::Short(at)
            | ElfError::Ident(at)
            | ElfError::Kind(at)
            | ElfError::Machine(at)
            | ElfError::EntrySize(at)
            | ElfError::Dynamic(at)
            | ElfError::SegRange(at)
            | ElfError::SegOverlap(at)
            | ElfError::NoSymtab(at)
            | ElfError::TwoSymtabs(at)
            | ElfError::SymRange(at)
            | ElfError::NameEnd(at)
            | ElfError::Limit(at, _) => *at,
        }
    }
}
