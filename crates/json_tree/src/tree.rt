//! Types that are read in one way, the steps of paths, and members of objects.

ghost use Rattle.std.specs.Prelude.{◌≡◌, IsTrue, IfOk, IfErr, Result, Ok, Option, Some, None, option_map, Bool};
ghost use Rattle.serde_json.specs.Data.{Data};
ghost use Rattle.serde_json.specs.Find.{get};
ghost use Rattle.serde_json.specs.View.{view};
ghost use Rattle.asm_syntax.specs.Names.{is_name};
ghost use Rattle.asm_syntax.specs.declared.path.Step.TheVariants.{Key, Index};
ghost use Rattle.json_tree.specs.declared.fault.Cause.TheVariants.{Missing};
ghost use Rattle.json_tree.specs.declared.fault.Fault.{Fault};
ghost use Rattle.json_tree.specs.Answers.{Gives};
ghost use Rattle.json_tree.specs.Reading.{under, here, field, if_there, object, boolean, or_null};

use crate::fault::{Cause, Fault, ReadError};
use crate::name::name_of;
use asm_syntax::path::Step;
use serde_json::Value;
use std::alloc::{AllocError, Global};

/// A type whose values are read in one way, as its definition `reads` says.
pub trait Tree: Sized + Drop {
    ghost reads: { Data → Result Self Fault };

    fn read(alloc: Global, tree: &Value) -> Result<Self, ReadError>
        ensures { Gives result (reads (view tree.now)) };
}

/// A profile that says how the values of a type are read, so that a crate may read another crate's types.
pub trait Reads<T: Drop> {
    ghost reads: { Data → Result T Fault };

    fn read(alloc: Global, tree: &Value) -> Result<T, ReadError>
        ensures { Gives result (reads (view tree.now)) };
}

/// What is read as its own type says.
pub struct Own;

impl<T: Tree> Reads<T> for Own {
    ghost reads = { T.reads };

    fn read(alloc: Global, tree: &Value) -> Result<T, ReadError> {
        T::read(alloc, tree)
    }
}

fn key(alloc: Global, text: &str) -> Result<Step, AllocError>
    requires { IsTrue (is_name text.now) }
    ensures { IfOk result (λ step. step ≡ Key text.now) }
{
    match name_of(alloc, text)? {
        Some(name) => Ok(Step::Key(name)),
        None => unreachable!(),
    }
}

/// What was read at a key, seen from the object: a fault's path begins with the key.
pub fn at_key<T: Drop>(
    alloc: Global,
    text: &str,
    read: Result<T, ReadError>,
) -> Result<T, ReadError>
    requires { IsTrue (is_name text.now) }
    ensures same { IfOk result (λ x. read ≡ Ok x) }
    ensures gives { (r : Result T Fault) → Gives read r → Gives result (under (Key text.now) r) }
{
    match read {
        Err(ReadError::Fault(Fault { cause, mut path })) => {
            path.push(key(alloc, text)?)?;
            Err(ReadError::Fault(Fault { cause, path }))
        }
        other => other,
    }
}

/// What was read at an index, seen from the array: a fault's path begins with the index.
pub fn at_index<T: Drop>(
    alloc: Global,
    index: u32,
    read: Result<T, ReadError>,
) -> Result<T, ReadError>
    ensures same { IfOk result (λ x. read ≡ Ok x) }
    ensures gives { (r : Result T Fault) → Gives read r → Gives result (under (Index index) r) }
{
    match read {
        Err(ReadError::Fault(Fault { cause, mut path })) => {
            path.push(Step::Index(index))?;
            Err(ReadError::Fault(Fault { cause, path }))
        }
        other => other,
    }
}

/// The member of an object at a key.
pub(crate) fn member<'a>(alloc: Global, tree: &'a Value, key: &str) -> Result<&'a Value, ReadError>
    ensures there { IfOk result (λ value. get key.now (view tree.now) ≡ Some (view value.now)) }
    ensures missing { IfErr result (λ e. (e ≡ ReadError.Fault (here Missing)) × (get key.now (view tree.now) ≡ None)) }
{
    tree.get(key).ok_or(ReadError::here(alloc, Cause::Missing))
}

/// The member of an object at a key, read as a profile says.
#[tactic(auto, unfolding(crate::specs::Reading::field))]
pub fn field_by<P: Reads<T>, T: Drop>(
    alloc: Global,
    tree: &Value,
    key: &str,
) -> Result<T, ReadError>
    requires { IsTrue (is_name key.now) }
    ensures { Gives result (field key.now P.reads (view tree.now)) }
{
    let read = member(alloc, tree, key).and_then(|value| P::read(alloc, value));
    at_key(alloc, key, read)
}

/// The member of an object at a key.
pub fn field<T: Tree>(alloc: Global, tree: &Value, key: &str) -> Result<T, ReadError>
    requires { IsTrue (is_name key.now) }
    ensures { Gives result (field key.now T.reads (view tree.now)) }
{
    field_by::<Own, T>(alloc, tree, key)
}

pub fn object(alloc: Global, tree: &Value) -> Result<(), ReadError>
    ensures { Gives result (object (view tree.now)) }
{
    if tree.is_object() {
        Ok(())
    } else {
        Err(ReadError::here(alloc, Cause::WrongKind))
    }
}

impl Tree for bool {
    ghost reads = { boolean };

    fn read(alloc: Global, tree: &Value) -> Result<bool, ReadError> {
        tree.as_bool()
            .ok_or(ReadError::here(alloc, Cause::WrongKind))
    }
}

/// Null, or a value.
#[tactic(auto, unfolding(crate::specs::Reading::or_null))]
impl<T: Tree> Tree for Option<T> {
    ghost reads = { or_null T.reads };

    fn read(alloc: Global, tree: &Value) -> Result<Option<T>, ReadError> {
        if tree.is_null() {
            return Ok(None);
        }
        let value = T::read(alloc, tree)?;
        Ok(Some(value))
    }
}
