//! Why a text is no dump.

ghost use Rattle.std.specs.Prelude.{◌≡◌, Some, IsTrue};
ghost use Rattle.dump_reader.specs.Causes.{is_dump_cause};
ghost use Rattle.dump_reader.specs.DumpFile.{At, told, number_of};

use asm_syntax::path::Path;
use asm_syntax::shape::ShapeError;
use json_tree::fault::{Cause, Fault};

/// Why no unit and no replies were read. A path leads to the first fault in the order of the profile.
#[derive(Debug, Drop)]
pub enum DumpError {
    /// The bytes are no UTF-8, or no JSON text that `serde_json` reads.
    NotJson,
    /// No member at a key.
    Missing(Path),
    /// Another kind of value, or a number that is no integer of 64 bits.
    WrongKind(Path),
    /// A number, a text or a number of items outside its range, or a name that is taken.
    OutOfRange(Path),
    /// A text outside its list.
    UnknownWord(Path),
    /// A version that is not read.
    Version(Path),
    /// A function or a signature of a wrong shape.
    Shape(Path, ShapeError),
    /// A floating-point or a 64-bit instruction or datum.
    Refused(Path),
    /// More items or bytes than the limit.
    Limit(Path, u32),
    Memory,
}

impl DumpError {
    /// 1 to 10, in the order of the variants.
    pub fn number(&self) -> u8
        ensures { result ≡ number_of self.now }
    {
        match self {
            DumpError::NotJson => 1,
            DumpError::Missing(_) => 2,
            DumpError::WrongKind(_) => 3,
            DumpError::OutOfRange(_) => 4,
            DumpError::UnknownWord(_) => 5,
            DumpError::Version(_) => 6,
            DumpError::Shape(_, _) => 7,
            DumpError::Refused(_) => 8,
            DumpError::Limit(_, _) => 9,
            DumpError::Memory => 10,
        }
    }
}

/// The error that tells a fault. Faults of ranges and of aligned addresses stand in layouts alone.
pub fn error_of(fault: Fault) -> DumpError
    requires { IsTrue (is_dump_cause fault.cause) }
    ensures { told result ≡ Some (At fault) }
{
    let path = fault.path.into_path();
    match fault.cause {
        Cause::Missing => DumpError::Missing(path),
        Cause::WrongKind => DumpError::WrongKind(path),
        Cause::OutOfRange => DumpError::OutOfRange(path),
        Cause::UnknownWord => DumpError::UnknownWord(path),
        Cause::Version => DumpError::Version(path),
        Cause::Shape(error) => DumpError::Shape(path, error),
        Cause::Refused => DumpError::Refused(path),
        Cause::Limit(limit) => DumpError::Limit(path, limit),
        Cause::RangeOrder | Cause::Unaligned => unreachable!(),
    }
}
