//! Numbers in a tree.

ghost use Rattle.std.specs.Prelude.{◌≡◌, ◌≤◌, ◌<◌, ◌^◌, ◌≤ℤ◌, IfOk, length, map};
ghost use Rattle.serde_json.specs.View.{view};
ghost use Rattle.json_tree.specs.Answers.{Gives};
ghost use Rattle.json_tree.specs.Arrays.{nth};
ghost use Rattle.json_tree.specs.Numbers.{integer, ranged, natural, wrapped, word, unsigned16, unsigned32, signed32};

use crate::fault::{Cause, ReadError};
use crate::tree::{Tree, at_index};
use serde_json::Value;
use std::alloc::Global;
use std::marker::Model;

/// An integer that fits 64 bits, signed or unsigned.
pub fn integer(alloc: Global, tree: &Value) -> Result<i128, ReadError>
    ensures { Gives result (integer (view tree.now)) }
{
    tree.as_number()
        .and_then(|number| number.as_i128())
        .ok_or(ReadError::here(alloc, Cause::WrongKind))
}

/// An integer from lo to hi.
#[tactic(auto, unfolding(crate::specs::Numbers::ranged))]
pub fn ranged(alloc: Global, tree: &Value, lo: i64, hi: i64) -> Result<i64, ReadError>
    ensures gives { Gives result (ranged lo hi (view tree.now)) }
    ensures low { IfOk result (λ z. lo ≤ℤ z) }
    ensures high { IfOk result (λ z. z ≤ℤ hi) }
{
    let number = integer(alloc, tree)?;
    if i128::from(lo) <= number && number <= i128::from(hi) {
        Ok(number as i64)
    } else {
        Err(ReadError::here(alloc, Cause::OutOfRange))
    }
}

/// An integer from 0 to most.
#[tactic(auto, unfolding(crate::specs::Numbers::natural))]
pub fn natural(alloc: Global, tree: &Value, most: u32) -> Result<u32, ReadError>
    ensures gives { Gives result (natural most (view tree.now)) }
    ensures bound { IfOk result (λ n. n ≤ most) }
{
    let number = integer(alloc, tree)?;
    if 0 <= number && number <= i128::from(most) {
        Ok(number as u32)
    } else {
        Err(ReadError::here(alloc, Cause::OutOfRange))
    }
}

/// An integer that is signed or unsigned in a size, taken modulo the size.
#[tactic(auto, unfolding(crate::specs::Numbers::wrapped))]
pub fn wrapped(alloc: Global, tree: &Value, size: u64) -> Result<u32, ReadError>
    requires least { 2 ≤ size }
    requires most { size ≤ 2 ^ 32 }
    ensures gives { Gives result (wrapped size (view tree.now)) }
    ensures bound { IfOk result (λ n. n < size) }
{
    let size = size as i64;
    let number = ranged(alloc, tree, -(size / 2), size - 1)?;
    if number < 0 {
        Ok((number + size) as u32)
    } else {
        Ok(number as u32)
    }
}

#[tactic(auto, unfolding(crate::specs::Numbers::unsigned32))]
impl Tree for u32 {
    ghost reads = { unsigned32 };

    fn read(alloc: Global, tree: &Value) -> Result<u32, ReadError> {
        natural(alloc, tree, 0xffff_ffff)
    }
}

#[tactic(auto, unfolding(crate::specs::Numbers::unsigned16))]
impl Tree for u16 {
    ghost reads = { unsigned16 };

    fn read(alloc: Global, tree: &Value) -> Result<u16, ReadError> {
        Ok(natural(alloc, tree, 0xffff)? as u16)
    }
}

#[tactic(auto, unfolding(crate::specs::Numbers::signed32))]
impl Tree for i32 {
    ghost reads = { signed32 };

    fn read(alloc: Global, tree: &Value) -> Result<i32, ReadError> {
        Ok(ranged(alloc, tree, -0x8000_0000, 0x7fff_ffff)? as i32)
    }
}

/// A word, signed or unsigned.
#[derive(Debug, Drop)]
pub struct Word {
    value: u32,
}

impl Model for Word {
    ghost use Rattle.std.specs.Prelude.{ℕ};

    ghost Value = { ℕ };

    ghost view = { λ word. word.value };
}

impl Word {
    pub fn value(&self) -> u32
        ensures { result ≡ self.now }
    {
        self.value
    }
}

#[tactic(auto, unfolding(crate::specs::Numbers::word))]
impl Tree for Word {
    ghost reads = { word };

    fn read(alloc: Global, tree: &Value) -> Result<Word, ReadError> {
        let value = wrapped(alloc, tree, 1 << 32)?;
        Ok(Word { value })
    }
}

/// The item at an index, an integer from 0 to most.
#[tactic(auto, unfolding(crate::specs::Arrays::nth), using(crate::proofs::Items::array_tools))]
pub fn natural_at(alloc: Global, values: &[Value], index: u32, most: u32) -> Result<u32, ReadError>
    requires { index < length values.now }
    ensures gives { Gives result (nth index (natural most) (map view values.now)) }
    ensures bound { IfOk result (λ n. n ≤ most) }
{
    at_index(alloc, index, natural(alloc, &values[index as usize], most))
}

/// The item at an index, an integer that is signed or unsigned in a size, taken modulo the size.
#[tactic(auto, unfolding(crate::specs::Arrays::nth), using(crate::proofs::Items::array_tools))]
pub fn wrapped_at(alloc: Global, values: &[Value], index: u32, size: u64) -> Result<u32, ReadError>
    requires there { index < length values.now }
    requires least { 2 ≤ size }
    requires most { size ≤ 2 ^ 32 }
    ensures gives { Gives result (nth index (wrapped size) (map view values.now)) }
    ensures bound { IfOk result (λ n. n < size) }
{
    at_index(alloc, index, wrapped(alloc, &values[index as usize], size))
}
