//! Arrays.

ghost use Rattle.std.specs.Prelude.{◌≡◌, ◌<◌, ◌^◌, ◌≤◌, IsTrue, IfOk, OnOk, [], map, length, option_map};
ghost use Rattle.serde_json.specs.View.{view};
ghost use Rattle.asm_syntax.specs.Names.{is_name};
ghost use Rattle.json_tree.specs.Answers.{Gives, GivesAs};
ghost use Rattle.json_tree.specs.Reading.{field, if_there};
ghost use Rattle.json_tree.specs.Arrays.{items, each, limited, list, counted, tuple, nth, chosen};

use crate::fault::{Cause, ReadError};
use crate::tree::{Own, Reads, Tree, at_index, at_key, member};
use asm_syntax::listed::Listed;
use serde_json::Value;
use std::alloc::Global;

#[tactic(auto, unfolding(crate::specs::Arrays::items), using(crate::proofs::Items::array_tools))]
pub fn items(alloc: Global, tree: &Value) -> Result<&Vec<Value>, ReadError>
    ensures { GivesAs (λ values. map view values.now.items) result (items (view tree.now)) }
{
    tree.as_array()
        .ok_or(ReadError::here(alloc, Cause::WrongKind))
}

/// Whether there are at most so many items.
#[tactic(auto, unfolding(crate::specs::Arrays::limited), using(crate::proofs::Items::array_tools))]
pub fn limited(alloc: Global, values: &[Value], limit: u32) -> Result<(), ReadError>
    ensures gives { Gives result (limited limit (map view values.now)) }
    ensures few { OnOk result (length values.now ≤ limit) }
{
    if values.len() <= limit as usize {
        Ok(())
    } else {
        Err(ReadError::here(alloc, Cause::Limit(limit)))
    }
}

fn read_each<P: Reads<T>, T: Drop>(alloc: Global, values: &[Value]) -> Result<Vec<T>, ReadError>
    requires { length values.now < 2 ^ 32 }
    ensures gives { GivesAs (λ v. v.items) result (each P.reads (map view values.now)) }
    ensures count { IfOk result (λ v. length v.items ≡ length values.now) }
{
    let mut items = Vec::new(alloc);
    for value in values {
        let item = at_index(alloc, items.len() as u32, P::read(alloc, value))?;
        items.push(item)?;
    }
    Ok(items)
}

/// An array of at most so many items, each read as a profile says.
#[tactic(auto, unfolding(crate::specs::Arrays::list))]
pub fn list_by<P: Reads<T>, T: Drop>(
    alloc: Global,
    tree: &Value,
    limit: u32,
) -> Result<Listed<T>, ReadError>
    ensures gives { Gives result (list limit P.reads (view tree.now)) }
    ensures few { IfOk result (λ list. length list ≤ limit) }
{
    let values = items(alloc, tree)?;
    limited(alloc, values, limit)?;
    Ok(Listed::from_vec(read_each::<P, T>(alloc, values)?))
}

/// An array of at most so many items.
pub fn list<T: Tree>(alloc: Global, tree: &Value, limit: u32) -> Result<Listed<T>, ReadError>
    ensures gives { Gives result (list limit T.reads (view tree.now)) }
    ensures few { IfOk result (λ list. length list ≤ limit) }
{
    list_by::<Own, T>(alloc, tree, limit)
}

/// The member at a key that is an array of at most so many items, each read as a profile says.
#[tactic(auto, unfolding(crate::specs::Reading::field))]
pub fn list_field_by<P: Reads<T>, T: Drop>(
    alloc: Global,
    tree: &Value,
    key: &str,
    limit: u32,
) -> Result<Listed<T>, ReadError>
    requires { IsTrue (is_name key.now) }
    ensures gives { Gives result (field key.now (list limit P.reads) (view tree.now)) }
    ensures few { IfOk result (λ list. length list ≤ limit) }
{
    let read = member(alloc, tree, key).and_then(|value| list_by::<P, T>(alloc, value, limit));
    at_key(alloc, key, read)
}

/// The member at a key that is an array of at most so many items.
pub fn list_field<T: Tree>(
    alloc: Global,
    tree: &Value,
    key: &str,
    limit: u32,
) -> Result<Listed<T>, ReadError>
    requires { IsTrue (is_name key.now) }
    ensures gives { Gives result (field key.now (list limit T.reads) (view tree.now)) }
    ensures few { IfOk result (λ list. length list ≤ limit) }
{
    list_field_by::<Own, T>(alloc, tree, key, limit)
}

/// Whether there are exactly so many items.
#[tactic(auto, unfolding(crate::specs::Arrays::counted), using(crate::proofs::Items::array_tools))]
pub fn counted(alloc: Global, values: &[Value], count: usize) -> Result<(), ReadError>
    ensures gives { Gives result (counted count (map view values.now)) }
    ensures count { OnOk result (length values.now ≡ count) }
{
    if values.len() == count {
        Ok(())
    } else {
        Err(ReadError::here(alloc, Cause::OutOfRange))
    }
}

/// An array of exactly so many items.
#[tactic(auto, unfolding(crate::specs::Arrays::tuple))]
pub fn tuple(alloc: Global, tree: &Value, count: usize) -> Result<&Vec<Value>, ReadError>
    ensures gives { GivesAs (λ values. map view values.now.items) result (tuple count (view tree.now)) }
    ensures count { IfOk result (λ values. length values.now.items ≡ count) }
{
    let values = items(alloc, tree)?;
    counted(alloc, values, count)?;
    Ok(values)
}

/// The item at an index, read as a profile says.
#[tactic(auto, unfolding(crate::specs::Arrays::nth), using(crate::proofs::Items::array_tools))]
pub fn nth_by<P: Reads<T>, T: Drop>(
    alloc: Global,
    values: &[Value],
    index: u32,
) -> Result<T, ReadError>
    requires { index < length values.now }
    ensures { Gives result (nth index P.reads (map view values.now)) }
{
    at_index(alloc, index, P::read(alloc, &values[index as usize]))
}

/// The item at an index.
pub fn nth<T: Tree>(alloc: Global, values: &[Value], index: u32) -> Result<T, ReadError>
    requires { index < length values.now }
    ensures { Gives result (nth index T.reads (map view values.now)) }
{
    nth_by::<Own, T>(alloc, values, index)
}

/// What the first item chooses, read as a profile says. An empty array is out of range.
#[tactic(auto, unfolding(crate::specs::Arrays::chosen), using(crate::proofs::Items::array_tools))]
pub fn chosen_by<P: Reads<T>, T: Drop>(alloc: Global, values: &[Value]) -> Result<T, ReadError>
    ensures gives { Gives result (chosen P.reads (map view values.now)) }
    ensures some { OnOk result (0 < length values.now) }
{
    if values.is_empty() {
        return Err(ReadError::here(alloc, Cause::OutOfRange));
    }
    nth_by::<P, T>(alloc, values, 0)
}
