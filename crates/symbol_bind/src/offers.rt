//! The candidates of all keys, once for all keys of a name.

ghost use Rattle.std.specs.Prelude.{◌≡◌, ◌≤◌, ◌<◌, ◌+◌, ◌*◌, ◌-◌, ◌^◌, ℕ, All, length, slice_get, IfOk, Some, None, slice_index_or};
ghost use Rattle.std.specs.Prelude.{if◌then◌else◌};
ghost use Rattle.image_model.specs.declared.symbol.TheConstants.{NAME_START_BYTES};
ghost use Rattle.link_model.specs.Program.{keys, name_of, is_static};
ghost use Rattle.link_model.specs.Sets.{set_of};
ghost use Rattle.name_addresses.specs.Keys.{declared};
ghost use Rattle.symbol_bind.specs.Offers.{served, slot, all_offered, IsSetAt, Extends, AreKnown};

use crate::candidates::candidates;
use name_addresses::keys::KeyedProgram;
use std::alloc::{AllocError, Global};
use std::marker::Model;
use symbol_index::index::SymIndex;

/// The candidates of each key. Keys that have the same ones share a set.
#[derive(Drop)]
pub struct Offers {
    sets: Vec<Vec<u32>>,
    /// For each key the number of its set.
    numbers: Vec<u32>,
}

impl Model for Offers {
    ghost use Rattle.std.specs.Prelude.{ℕ, ◌<◌, All, List, length, map};
    ghost use Rattle.symbol_bind.specs.Offers.{set_at};

    ghost Value = { List (List ℕ) };

    ghost view = { λ offers. map (set_at offers.sets.items) offers.numbers.items };

    ghost invariant = { λ offers. All (λ j. j < length offers.sets.items) offers.numbers.items };
}

impl Offers {
    /// The candidates of a key, in ascending order.
    pub fn set(&self, key: u32) -> &[u32]
        requires { key < length self.now }
        ensures { slice_get self.now key ≡ Some result.now }
    {
        let number = self.numbers[key as usize];
        &self.sets[number as usize]
    }
}

/// One more set, and its number.
fn add_set(sets: &mut Vec<Vec<u32>>, set: Vec<u32>) -> Result<u32, AllocError>
    requires few { length sets.old.items < 2 ^ 32 }
    ensures set { IfOk result (λ j. IsSetAt sets.new.items j set.items) }
    ensures kept { Extends sets.old.items sets.new.items }
    ensures grown { length sets.new.items ≤ length sets.old.items + 1 }
{
    let number = sets.len() as u32;
    sets.push(set)?;
    Ok(number)
}

fn slot(place: u32, is_static: bool) -> usize
    ensures { result ≡ slot place is_static }
{
    2 * place as usize + usize::from(is_static)
}

/// The number of the set of candidates of a name.
fn set_number(
    alloc: Global,
    index: &SymIndex,
    known: &mut [Option<u32>],
    sets: &mut Vec<Vec<u32>>,
    name: &[u8],
    is_static: bool,
) -> Result<u32, AllocError>
    requires short { length name.now < NAME_START_BYTES }
    requires room { length known.old ≡ 2 * length index.now.places }
    requires few { length sets.old.items < 2 ^ 32 }
    requires known { AreKnown index.now known.old sets.old.items }
    ensures same { length known.new ≡ length known.old }
    ensures set { IfOk result (λ j. IsSetAt sets.new.items j (set_of (served name.now is_static index.now.symbols))) }
    ensures known { IfOk result (λ _. AreKnown index.now known.new sets.new.items) }
    ensures kept { Extends sets.old.items sets.new.items }
    ensures grown { length sets.new.items ≤ length sets.old.items + 1 }
{
    let _count = index.places();
    let Some(first) = index.place_of(name) else {
        let none = Vec::new(alloc);
        let number = add_set(sets, none)?;
        return Ok(number);
    };
    let place = slot(first, is_static);
    if let Some(number) = known[place] {
        return Ok(number);
    }
    let set = candidates(alloc, index, name, is_static, first)?;
    let number = add_set(sets, set)?;
    known[place] = Some(number);
    Ok(number)
}

fn no_numbers(alloc: Global, n: usize) -> Result<Vec<Option<u32>>, AllocError>
    ensures count { IfOk result (λ v. length v.items ≡ n) }
    ensures none { IfOk result (λ v. (k j : ℕ) → slice_index_or v.items k None ≡ Some j → ⊥) }
{
    vec![in alloc; None; n]
}

/// The candidates of each key of a program.
pub fn gather_offers<P: KeyedProgram>(
    alloc: Global,
    index: &SymIndex,
    program: &P,
) -> Result<Offers, AllocError>
    ensures offers { IfOk result (λ o. o ≡ all_offered index.now.symbols (keys (P.program program.now).units)) }
    ensures few { IfOk result (λ o. All (λ set. length set < 2 ^ 32) o) }
{
    let mut known = no_numbers(alloc, 2 * index.places() as usize)?;
    let mut sets = Vec::new(alloc);
    let mut numbers = Vec::new(alloc);
    let count = program.key_count();
    for k in 0..count {
        let key = program.key(k);
        let name = key.name().bytes();
        let number = set_number(alloc, index, &mut known, &mut sets, name, key.is_static())?;
        numbers.push(number)?;
    }
    Ok(Offers { sets, numbers })
}
