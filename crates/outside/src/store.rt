//! Where files are read.
ghost use Rattle.std.specs.Prelude.{◌≡◌, ◌≤◌, ℕ, List, Option, IfOk, IfErr};
ghost use Rattle.outside.specs.Store.{Files, IsHeld, IsRefused, HasCause};
ghost use Rattle.outside.specs.declared.store.StoreError.TheVariants.{Memory};

use std::alloc::{AllocError, Global};
use thiserror::Error;

/// Why a file was not read.
#[derive(Clone, Copy, Debug, PartialEq, Eq, Error)]
pub enum StoreError {
    /// The read failed. The store has counted it and blames the name.
    #[error("the file could not be read")]
    Failed = 1,
    /// The file has more bytes than the limit.
    #[error("the file is too long")]
    TooLong = 2,
    #[error("out of memory")]
    Memory = 3,
    /// The store tells what it holds, and the name is not in it.
    #[error("there is no such file")]
    Absent = 4,
}

impl From<AllocError> for StoreError {
    ghost from_gives = { λ _ e. e ≡ Memory };

    fn from(_e: AllocError) -> StoreError {
        StoreError::Memory
    }
}

/// A finite map from names to bytes, which no call of the trait changes.
pub trait Store {
    /// The bytes under each name, if the store tells what it holds.
    ghost holds: { Self → Option Files };

    /// How many reads have failed, up to the last value of a `u64`.
    ghost faults: { Self → ℕ };

    /// The name whose read failed last, and empty before any.
    ghost blamed: { Self → List ℕ };

    /// Reads the whole file under a name, if it has at most `limit` bytes.
    ///
    /// A store that does not tell what it holds answers `Failed` for a missing file. The name is copied before the
    /// read, for the blame, and where it cannot be copied the answer is `Memory`.
    fn read_file(&mut self, alloc: Global, name: &str, limit: u32) -> Result<Vec<u8>, StoreError>
        ensures kept { holds self.new ≡ holds self.old }
        ensures held { IfOk result (λ bytes. IsHeld (holds self.old) name.now limit bytes.items) }
        ensures refused { IfErr result (λ e. IsRefused (holds self.old) name.now limit e) }
        ensures cause { HasCause (faults self.old) (faults self.new)
            (blamed self.old) (blamed self.new) name.now result }
        ensures never_falls { faults self.old ≤ faults self.new };
}
