//! The test of the entry.

ghost use Rattle.std.specs.Prelude.{◌≡◌, ◌&&◌, not, [], ◌∷◌};
ghost use Rattle.std.specs.List.{list_any};
ghost use Rattle.std.specs.Str.{bytes_eq};
ghost use Rattle.ordered_tests.specs.Answers.{Answers};
ghost use Rattle.ordered_tests.specs.Steps.{all_pass};
ghost use Rattle.asm_syntax.specs.declared.instr.Function.{Function};
ghost use Rattle.asm_syntax.specs.declared.unit.Unit.{Unit};
ghost use Rattle.link_model.specs.Program.{declarations};
ghost use Rattle.link_model.specs.Numbers.{is_entry};
ghost use Rattle.link_model.specs.LinkTests.{entry_test};
ghost use Rattle.asm_program.specs.Faults.{told};

use asm_syntax::instr::Function;
use asm_syntax::name::Name;
use asm_syntax::unit::Unit;
use link_model::link_error::LinkError;

fn is_entry(function: &Function, entry: &Name) -> bool
    ensures { result ≡ (not function.now.is_static && bytes_eq function.now.name entry.now) }
{
    !function.is_static && function.name == *entry
}

fn has_entry(unit: &Unit, entry: &Name) -> bool
    ensures { result ≡ list_any (λ (f : Function). not f.is_static && bytes_eq f.name entry.now) unit.now.functions }
{
    unit.functions
        .items()
        .iter()
        .any(|function| is_entry(function, entry))
}

fn have_entry(units: &[Unit], entry: &Name) -> bool
    ensures { result ≡ list_any (λ (unit : Unit). list_any (λ (f : Function). not f.is_static && bytes_eq f.name entry.now) unit.functions)
        units.now }
{
    units.iter().any(|unit| has_entry(unit, entry))
}

/// That some unit has a global function with the name of the entry. It takes no memory.
#[tactic(auto, using(crate::proofs::Entries::entry_among))]
pub fn entry_is_function(units: &[Unit], entry: &Name) -> Result<(), LinkError>
    ensures { Answers told result (all_pass (entry_test units.now entry.now ∷ [])) }
{
    if have_entry(units, entry) {
        Ok(())
    } else {
        Err(LinkError::NoEntry)
    }
}
