//! The test of the bytes of all variables.

ghost use Rattle.std.specs.Prelude.{◌≡◌, ◌<◌, ◌^◌, ℕ, map};
ghost use Rattle.limits.specs.declared.TheConstants.{MOST_PROGRAM_VARIABLE_BYTES};
ghost use Rattle.ordered_tests.specs.Answers.{Answers};
ghost use Rattle.ordered_tests.specs.Steps.{all_pass};
ghost use Rattle.link_model.specs.LinkTests.{size_tests};
ghost use Rattle.asm_program.specs.Faults.{told};
ghost use Rattle.asm_program.specs.Seen.{declaration_seen};

use crate::declared::Declared;
use limits::MOST_PROGRAM_VARIABLE_BYTES;
use link_model::link_error::LinkError;
use std::alloc::Global;

/// That the bytes of the variables among the keys are not too many.
pub fn sizes_fit<'u>(alloc: Global, keys: &[Declared<'u>]) -> Result<(), LinkError>
    ensures { Answers told result (all_pass (size_tests 0 (map declaration_seen keys.now))) }
{
    let mut total: u128 = 0;
    for d in keys {
        total += d.size();
        if total > u128::from(MOST_PROGRAM_VARIABLE_BYTES) {
            return match d.name().copy(alloc) {
                Ok(name) => Err(LinkError::TooBig(d.unit, name)),
                Err(_) => Err(LinkError::Memory),
            };
        }
    }
    Ok(())
}
