//! The test of the names of units.

ghost use Rattle.std.specs.Prelude.{◌≤◌, length};
ghost use Rattle.limits.specs.declared.TheConstants.{MOST_UNITS};
ghost use Rattle.ordered_tests.specs.Answers.{Answers};
ghost use Rattle.ordered_tests.specs.Steps.{all_pass};
ghost use Rattle.link_model.specs.LinkTests.{unit_tests};
ghost use Rattle.asm_program.specs.Faults.{told};

use crate::names::Names;
use asm_syntax::unit::Unit;
use link_model::link_error::LinkError;
use std::alloc::Global;

/// That no unit has the name of an earlier one.
pub fn units_are_new<'u>(alloc: Global, units: &'u [Unit]) -> Result<(), LinkError>
    requires { length units.now ≤ MOST_UNITS }
    ensures { Answers told result (all_pass (unit_tests units.now)) }
{
    let mut seen = Names::new(alloc);
    for (i, unit) in units.iter().enumerate() {
        let name = unit.name.bytes();
        if seen.contains(name) {
            return Err(LinkError::UnitTwice(i as u32));
        }
        match seen.add(name) {
            Ok(()) => {}
            Err(_) => return Err(LinkError::Memory),
        }
    }
    Ok(())
}
