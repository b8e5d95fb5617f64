//! The names that owners tell.

ghost use Rattle.std.specs.Prelude.{◌≡◌, IfOk};
ghost use Rattle.link_model.specs.Overlaps.{owner_names};

use asm_syntax::name::Name;
use key_passes::fault::no_name;
use link_model::owner::Owner;
use std::alloc::{AllocError, Global};

/// The names of the unit and of what stands in it.
pub fn owner_names(alloc: Global, owner: &Owner) -> Result<(Name, Name), AllocError>
    ensures { IfOk result (λ names. names ≡ owner_names owner.now) }
{
    match owner {
        Owner::Function(unit, name) | Owner::Table(unit, name, _) | Owner::Variable(unit, name) => {
            Ok((unit.copy(alloc)?, name.copy(alloc)?))
        }
        Owner::Padding | Owner::Foreign => Ok((no_name(alloc)?, no_name(alloc)?)),
    }
}
