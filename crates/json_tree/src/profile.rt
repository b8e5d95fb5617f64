//! What all profiles have.

ghost use Rattle.std.specs.Prelude.{◌≡◌, Some, None, IfOk, IsErrOf, codes, option_map};
ghost use Rattle.serde_json.specs.View.{view};
ghost use Rattle.json_tree.specs.Answers.{Gives};
ghost use Rattle.json_tree.specs.Profile.{tree_of, version, header};
ghost use Rattle.json_tree.specs.Reading.{field, if_there};

use crate::fault::{Cause, ReadError};
use crate::number::integer;
use crate::text::stated_field;
use crate::tree::{at_key, member, object};
use serde_json::Value;
use std::alloc::Global;

/// Why bytes have no tree.
#[derive(Clone, Copy, Debug, PartialEq, Eq, Drop)]
pub enum NoTree {
    /// No UTF-8, no JSON, nested deeper than 127, or with a number too large for a float.
    NotJson,
    Memory,
}

/// The tree that bytes are.
#[tactic(auto, unfolding(crate::specs::Profile::tree_of), using(crate::proofs::Texts::texts))]
pub fn tree_of(alloc: Global, bytes: &[u8]) -> Result<Value, NoTree>
    ensures ok { IfOk result (λ tree. tree_of bytes.now ≡ Some (view tree)) }
    ensures none { IsErrOf result NoTree.NotJson → tree_of bytes.now ≡ None }
{
    match Value::from_slice(alloc, bytes) {
        Ok(tree) => Ok(tree),
        Err(error) => {
            if error.is_memory() {
                return Err(NoTree::Memory);
            }
            Err(NoTree::NotJson)
        }
    }
}

#[tactic(auto, unfolding(crate::specs::Profile::version))]
fn version(alloc: Global, tree: &Value, newest: u32) -> Result<u32, ReadError>
    ensures { Gives result (version newest (view tree.now)) }
{
    let version = integer(alloc, tree)?;
    if 1 <= version && version <= i128::from(newest) {
        Ok(version as u32)
    } else {
        Err(ReadError::here(alloc, Cause::Version))
    }
}

#[tactic(auto, unfolding(crate::specs::Reading::field))]
fn version_field(alloc: Global, tree: &Value, newest: u32) -> Result<u32, ReadError>
    ensures { Gives result (field (codes "version") (version newest) (view tree.now)) }
{
    let read = member(alloc, tree, "version").and_then(|value| version(alloc, value, newest));
    at_key(alloc, "version", read)
}

/// The head of a profile, whose version is given. `newest` is the newest version that is read.
#[tactic(auto, unfolding(crate::specs::Profile::header))]
pub fn header(alloc: Global, tree: &Value, profile: &str, newest: u32) -> Result<u32, ReadError>
    ensures { Gives result (header profile.now newest (view tree.now)) }
{
    object(alloc, tree)?;
    stated_field(alloc, tree, "valex", profile)?;
    version_field(alloc, tree, newest)
}
