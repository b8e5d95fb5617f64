//! Variables.

ghost use Rattle.std.specs.Prelude.{◌≡◌};
ghost use Rattle.asm_shapes.specs.Units.{variable_name};
ghost use Rattle.dump_reader.specs.UnitTree.{alignment, variable};

use crate::profile::Dump;
use asm_syntax::unit::{InitList, Variable};
use json_tree::fault::{Cause, ReadError};
use json_tree::number::natural;
use json_tree::taken::{ReadsNamed, Taken, new_name_field};
use json_tree::tree::{Tree, field, field_by, object};
use serde_json::Value;
use std::alloc::Global;
use std::marker::Model;

#[derive(Drop)]
struct Alignment {
    bytes: u8,
}

impl Model for Alignment {
    ghost use Rattle.std.specs.Prelude.{ℕ};

    ghost Value = { ℕ };

    ghost view = { λ alignment. alignment.bytes };
}

#[tactic(auto, unfolding(crate::specs::UnitTree::alignment))]
impl Tree for Alignment {
    ghost reads = { alignment };

    fn read(alloc: Global, tree: &Value) -> Result<Alignment, ReadError> {
        let bytes = natural(alloc, tree, 16)? as u8;
        if matches!(bytes, 1 | 2 | 4 | 8 | 16) {
            Ok(Alignment { bytes })
        } else {
            Err(ReadError::here(alloc, Cause::OutOfRange))
        }
    }
}

#[tactic(auto, unfolding(crate::specs::UnitTree::variable))]
impl ReadsNamed<Variable> for Dump {
    ghost name_of = { variable_name };

    ghost reads = { variable };

    fn read(alloc: Global, taken: &mut Taken, tree: &Value) -> Result<Variable, ReadError> {
        object(alloc, tree)?;
        let name = new_name_field(alloc, taken, tree, "name")?;
        let is_static = field(alloc, tree, "static")?;
        let writable = field(alloc, tree, "writable")?;
        let align: Alignment = field(alloc, tree, "align")?;
        let init = field_by::<Dump, InitList>(alloc, tree, "init")?;
        Ok(Variable {
            name,
            is_static,
            writable,
            align: align.bytes,
            init,
        })
    }
}
