//! Names in a tree.

ghost use Rattle.std.specs.Prelude.{◌≡◌, IfOk, Some, None, if◌then◌else◌};
ghost use Rattle.asm_syntax.specs.Names.{is_name};
ghost use Rattle.json_tree.specs.Reading.{name};

use crate::fault::{Cause, ReadError};
use crate::text::text;
use crate::tree::Tree;
use asm_syntax::name::{Name, NameError};
use serde_json::Value;
use std::alloc::{AllocError, Global};

/// The name that a text is, if it is one.
#[tactic(auto, using(crate::proofs::NameLemmas::no_name))]
pub(crate) fn name_of(alloc: Global, text: &str) -> Result<Option<Name>, AllocError>
    ensures { IfOk result (λ name. name ≡ (if is_name text.now then Some text.now else None)) }
{
    match Name::from_bytes(alloc, text.as_bytes()) {
        Ok(name) => Ok(Some(name)),
        Err(NameError::Memory) => Err(AllocError),
        Err(_) => Ok(None),
    }
}

#[tactic(auto, unfolding(crate::specs::Reading::name))]
impl Tree for Name {
    ghost reads = { name };

    fn read(alloc: Global, tree: &Value) -> Result<Name, ReadError> {
        name_of(alloc, text(alloc, tree)?)?.ok_or(ReadError::here(alloc, Cause::OutOfRange))
    }
}
