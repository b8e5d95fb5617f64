//! Why a command goes no further.

ghost use Rattle.std.specs.Prelude.{◌≡◌};
ghost use Rattle.command_verdicts.specs.declared.stop.Stop.TheVariants.{Memory};

use report_text::verdict::Verdict;
use std::alloc::{AllocError, AllocFailed};

#[derive(Drop)]
pub enum Stop {
    Decided(Verdict),
    Memory,
}

impl From<AllocError> for Stop {
    ghost from_gives = { λ _ stop. stop ≡ Memory };

    fn from(_error: AllocError) -> Stop {
        Stop::Memory
    }
}

impl<T: Drop> From<AllocFailed<T>> for Stop {
    ghost from_gives = { λ _ stop. stop ≡ Memory };

    fn from(_error: AllocFailed<T>) -> Stop {
        Stop::Memory
    }
}
