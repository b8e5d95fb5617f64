//! What a range of addresses belongs to.

ghost use Rattle.std.specs.Prelude.{◌≡◌, IfOk};

use asm_syntax::name::Name;
use std::alloc::{AllocError, Global};

/// By the name of a unit and that of its definition. A table has the offset of its jump in the function.
#[derive(Debug, Drop)]
pub enum Owner {
    Function(Name, Name),
    Table(Name, Name, u32),
    Variable(Name, Name),
    Padding,
    Foreign,
}

impl Owner {
    pub fn copy(&self, alloc: Global) -> Result<Owner, AllocError>
        ensures { IfOk result (λ owner. owner ≡ self.now) }
    {
        match self {
            Owner::Function(unit, name) => Ok(Owner::Function(
                unit.copy(alloc)?,
                name.copy(alloc)?,
            )),
            Owner::Table(unit, name, offset) => {
                Ok(Owner::Table(unit.copy(alloc)?, name.copy(alloc)?, *offset))
            }
            Owner::Variable(unit, name) => Ok(Owner::Variable(
                unit.copy(alloc)?,
                name.copy(alloc)?,
            )),
            Owner::Padding => Ok(Owner::Padding),
            Owner::Foreign => Ok(Owner::Foreign),
        }
    }
}
