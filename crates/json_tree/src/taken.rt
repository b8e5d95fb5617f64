//! Names that must be new.

ghost use Rattle.std.specs.Prelude.{◌≡◌, ℕ, List, [], ◌<◌, ◌≤◌, ◌^◌, IsTrue, IfOk, Result, map, length, not, ◌||◌, option_map};
ghost use Rattle.std.specs.Str.{bytes_eq};
ghost use Rattle.serde_json.specs.Data.{Data};
ghost use Rattle.serde_json.specs.Find.{get};
ghost use Rattle.serde_json.specs.View.{view};
ghost use Rattle.asm_syntax.specs.Names.{is_name};
ghost use Rattle.json_tree.specs.declared.fault.Fault.{Fault};
ghost use Rattle.json_tree.specs.Answers.{Gives, GivesAs};
ghost use Rattle.json_tree.specs.Reading.{field, if_there};
ghost use Rattle.json_tree.specs.NewNames.{is_taken, with_name, with_names, new_name, each_named, named_list};

use crate::array::{items, limited};
use crate::fault::{Cause, ReadError};
use crate::tree::{Tree, at_index, at_key, member};
use asm_syntax::listed::Listed;
use asm_syntax::name::Name;
use serde_json::Value;
use std::alloc::{AllocError, Global};
use std::collections::BTreeSet;
use std::marker::Model;

/// The set of the names that are taken.
#[derive(Debug, Drop)]
pub struct Taken {
    names: BTreeSet<String>,
}

impl Model for Taken {
    ghost use Rattle.std.specs.Prelude.{List, ℕ, map, string_bytes};

    ghost Value = { List (List ℕ) };

    ghost view = { λ taken. map string_bytes taken.names.keys };
}

impl Taken {
    /// The empty set. It takes no memory before the first name.
    pub fn new(alloc: Global) -> Taken
        ensures { result ≡ [] }
    {
        Taken {
            names: BTreeSet::new(alloc),
        }
    }

    /// Takes a name, and tells whether it was free.
    pub fn take(&mut self, alloc: Global, name: &str) -> Result<bool, AllocError>
        ensures free { IfOk result (λ free. free ≡ not (is_taken self.old name.now)) }
        ensures taken { IfOk result (λ free. self.new ≡ with_name self.old name.now) }
        ensures members { IfOk result (λ free. (bytes : List ℕ)
            → is_taken self.new bytes ≡ (bytes_eq bytes name.now || is_taken self.old bytes)) }
    {
        let free = self.names.insert(String::from_str(alloc, name)?)?;
        Ok(free)
    }
}

/// A name that is free, which it takes.
#[tactic(auto, unfolding(crate::specs::NewNames::new_name))]
pub fn new_name(alloc: Global, taken: &mut Taken, tree: &Value) -> Result<Name, ReadError>
    ensures gives { Gives result (new_name taken.old (view tree.now)) }
    ensures taken { IfOk result (λ name. taken.new ≡ with_name taken.old name) }
{
    let name: Name = Tree::read(alloc, tree)?;
    if taken.take(alloc, name.text())? {
        Ok(name)
    } else {
        Err(ReadError::here(alloc, Cause::OutOfRange))
    }
}

fn new_member(alloc: Global, taken: &mut Taken, tree: &Value, key: &str) -> Result<Name, ReadError>
    ensures gives { Gives result (if_there (get key.now (view tree.now)) (new_name taken.old)) }
    ensures taken { IfOk result (λ name. taken.new ≡ with_name taken.old name) }
{
    new_name(alloc, taken, member(alloc, tree, key)?)
}

/// The member at a key that is a free name, which it takes.
#[tactic(auto, unfolding(crate::specs::Reading::field))]
pub fn new_name_field(
    alloc: Global,
    taken: &mut Taken,
    tree: &Value,
    key: &str,
) -> Result<Name, ReadError>
    requires { IsTrue (is_name key.now) }
    ensures gives { Gives result (field key.now (new_name taken.old) (view tree.now)) }
    ensures taken { IfOk result (λ name. taken.new ≡ with_name taken.old name) }
{
    at_key(alloc, key, new_member(alloc, taken, tree, key))
}

/// A profile that says how the values of a type with names are read: a value is read knowing the names that are taken, and
/// takes its own.
pub trait ReadsNamed<T: Drop> {
    ghost name_of: { T → List ℕ };

    ghost reads: { List (List ℕ) → Data → Result T Fault };

    fn read(alloc: Global, taken: &mut Taken, tree: &Value) -> Result<T, ReadError>
        ensures gives { Gives result (reads taken.old (view tree.now)) }
        ensures taken { IfOk result (λ x. taken.new ≡ with_name taken.old (name_of x)) };
}

fn read_each_named<P: ReadsNamed<T>, T: Drop>(
    alloc: Global,
    taken: &mut Taken,
    values: &[Value],
) -> Result<Vec<T>, ReadError>
    requires { length values.now < 2 ^ 32 }
    ensures gives { GivesAs (λ v. v.items) result
        (each_named P.name_of P.reads taken.old (map view values.now)) }
    ensures taken { IfOk result (λ v. taken.new ≡ with_names taken.old (map P.name_of v.items)) }
    ensures count { IfOk result (λ v. length v.items ≡ length values.now) }
{
    let mut items = Vec::new(alloc);
    for value in values {
        let index = items.len() as u32;
        let read = P::read(alloc, taken, value);
        let item = at_index(alloc, index, read)?;
        items.push(item)?;
    }
    Ok(items)
}

/// An array of at most so many items with free names, which it takes.
#[tactic(auto, unfolding(crate::specs::NewNames::named_list))]
pub fn named_list<P: ReadsNamed<T>, T: Drop>(
    alloc: Global,
    taken: &mut Taken,
    tree: &Value,
    limit: u32,
) -> Result<Listed<T>, ReadError>
    ensures gives { Gives result (named_list P.name_of P.reads taken.old limit (view tree.now)) }
    ensures taken { IfOk result (λ list. taken.new ≡ with_names taken.old (map P.name_of list)) }
    ensures few { IfOk result (λ list. length list ≤ limit) }
{
    let values = items(alloc, tree)?;
    limited(alloc, values, limit)?;
    Ok(Listed::from_vec(read_each_named::<P, T>(alloc, taken, values)?))
}

fn named_member<P: ReadsNamed<T>, T: Drop>(
    alloc: Global,
    taken: &mut Taken,
    tree: &Value,
    key: &str,
    limit: u32,
) -> Result<Listed<T>, ReadError>
    ensures gives { Gives result
        (if_there (get key.now (view tree.now)) (named_list P.name_of P.reads taken.old limit)) }
    ensures taken { IfOk result (λ list. taken.new ≡ with_names taken.old (map P.name_of list)) }
    ensures few { IfOk result (λ list. length list ≤ limit) }
{
    named_list::<P, T>(alloc, taken, member(alloc, tree, key)?, limit)
}

/// The member at a key that is an array of at most so many items with free names, which it takes.
#[tactic(auto, unfolding(crate::specs::Reading::field))]
pub fn named_list_field<P: ReadsNamed<T>, T: Drop>(
    alloc: Global,
    taken: &mut Taken,
    tree: &Value,
    key: &str,
    limit: u32,
) -> Result<Listed<T>, ReadError>
    requires { IsTrue (is_name key.now) }
    ensures gives { Gives result (field key.now (named_list P.name_of P.reads taken.old limit) (view tree.now)) }
    ensures taken { IfOk result (λ list. taken.new ≡ with_names taken.old (map P.name_of list)) }
    ensures few { IfOk result (λ list. length list ≤ limit) }
{
    at_key(
        alloc,
        key,
        named_member::<P, T>(alloc, taken, tree, key, limit),
    )
}
