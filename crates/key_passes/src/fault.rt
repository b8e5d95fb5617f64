//! Why no answer is given that an image matches.

ghost use Rattle.std.specs.Prelude.{◌≡◌, None, IfOk};
ghost use Rattle.link_model.specs.Overlaps.{fault_at, no_name};
ghost use Rattle.link_model.specs.Passes.{nowhere};
ghost use Rattle.key_passes.specs.Answers.{IsNoOf};

use asm_syntax::name::{Name, NameError};
use code_model::spot::Spot;
use link_model::fault::Fault;
use std::alloc::{AllocError, Global};

#[derive(Debug, Drop)]
pub enum CheckFault {
    /// The first place that fails.
    No(Fault),
    Memory,
}

impl From<AllocError> for CheckFault {
    ghost use Rattle.key_passes.specs.declared.fault.CheckFault.TheVariants.{Memory};

    ghost from_gives = { λ _ fault. fault ≡ Memory };

    fn from(_: AllocError) -> CheckFault {
        CheckFault::Memory
    }
}

fn fault_of_names(unit: Name, name: Name, spot: Spot) -> Fault
    ensures { result ≡ fault_at unit name spot None }
{
    Fault {
        rule: spot.rule,
        unit,
        name,
        offset: spot.offset,
        item: spot.item,
        wanted: spot.wanted,
        found: spot.found,
        other: None,
    }
}

fn copied_fault(alloc: Global, unit: &Name, name: &Name, spot: Spot) -> Result<Fault, AllocError>
    ensures { IfOk result (λ f. f ≡ fault_at unit.now name.now spot None) }
{
    let unit = unit.copy(alloc)?;
    let name = name.copy(alloc)?;
    Ok(fault_of_names(unit, name, spot))
}

/// The fault of a place in what a unit and a name tell.
pub fn fault_in(alloc: Global, unit: &Name, name: &Name, spot: Spot) -> CheckFault
    ensures { IsNoOf (fault_at unit.now name.now spot None) result }
{
    match copied_fault(alloc, unit, name, spot) {
        Ok(fault) => CheckFault::No(fault),
        Err(_) => CheckFault::Memory,
    }
}

/// The name that stands where there is none.
pub fn no_name(alloc: Global) -> Result<Name, AllocError>
    ensures { IfOk result (λ name. name ≡ no_name) }
{
    match Name::from_bytes(alloc, b"-") {
        Ok(name) => Ok(name),
        Err(NameError::Memory) => Err(AllocError),
        Err(_) => unreachable!(),
    }
}

fn nameless_fault(alloc: Global, spot: Spot) -> Result<Fault, AllocError>
    ensures { IfOk result (λ f. f ≡ nowhere spot) }
{
    let unit = no_name(alloc)?;
    let name = no_name(alloc)?;
    Ok(fault_of_names(unit, name, spot))
}

/// The fault of a place that no unit names.
pub fn fault_nowhere(alloc: Global, spot: Spot) -> CheckFault
    ensures { IsNoOf (nowhere spot) result }
{
    match nameless_fault(alloc, spot) {
        Ok(fault) => CheckFault::No(fault),
        Err(_) => CheckFault::Memory,
    }
}
