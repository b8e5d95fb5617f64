//! Pins: addresses of names that are stated.

ghost use Rattle.std.specs.Prelude.{◌≡◌, ◌<◌, ◌^◌, ℕ, List, [], IfOk, OnOk, map, length, option_map, string_bytes, codes};
ghost use Rattle.serde_json.specs.View.{view};
ghost use Rattle.json_tree.specs.Answers.{Gives, GivesAs};
ghost use Rattle.json_tree.specs.Reading.{field, if_there};
ghost use Rattle.layout_file.specs.LayoutTree.{pin, unpinned, pins, pins_from};
ghost use Rattle.layout_model.specs.Layouts.{is_pin_of, pin_in};
ghost use Rattle.layout_file.specs.Pins.{is_pinned, with_pin, pin_cmp};
ghost use Rattle.std.specs.List.Sorted.{IsBinarySearchResult, IsSearchInRange, IsStrictlySortedBy};
ghost use Rattle.std.specs.Map.{keys_of};
ghost use Rattle.layout_file.specs.PinEntries.{key_cmp, pin_of_entry, pin_sought};

use asm_syntax::name::Name;
use json_tree::address::Address;
use json_tree::array::{items, limited};
use json_tree::fault::{Cause, ReadError};
use json_tree::tree::{Tree, at_index, at_key, field, object};
use limits::MOST_PINS;
use serde_json::Value;
use std::alloc::{AllocError, Global};
use std::cmp::Ordering;
use std::collections::BTreeMap;
use std::marker::Model;

/// What a pin names: a unit's own name, or a global one.
#[derive(Debug, PartialEq, Eq, PartialOrd, Ord, Drop)]
pub struct PinKey {
    unit: Option<String>,
    name: String,
}

/// A pin as it is read.
#[derive(Debug, Drop)]
pub struct ReadPin {
    key: PinKey,
    address: u32,
}

impl Model for ReadPin {
    ghost use Rattle.layout_model.specs.Layouts.{Pin};
    ghost use Rattle.layout_file.specs.PinEntries.{pin_of_entry};

    ghost Value = { Pin };

    ghost view = { λ pin. pin_of_entry (pin.key, pin.address) };
}

/// The pins that are read so far.
#[derive(Debug, Drop)]
pub struct PinMap {
    addresses: BTreeMap<PinKey, u32>,
}

impl Model for PinMap {
    ghost use Rattle.std.specs.Prelude.{List, map};
    ghost use Rattle.layout_model.specs.Layouts.{Pin};
    ghost use Rattle.layout_file.specs.PinEntries.{pin_of_entry};

    ghost Value = { List Pin };

    ghost view = { λ pins. map pin_of_entry pins.addresses.entries };
}

/// The pins of a layout, in ascending order of what they name.
#[derive(Debug, Drop)]
pub struct Pins {
    entries: Vec<(PinKey, u32)>,
}

impl Model for Pins {
    ghost use Rattle.std.specs.Prelude.{List, map};
    ghost use Rattle.std.specs.List.Sorted.{IsStrictlySortedBy};
    ghost use Rattle.layout_model.specs.Layouts.{Pin};
    ghost use Rattle.layout_file.specs.Pins.{pin_cmp};
    ghost use Rattle.layout_file.specs.PinEntries.{pin_of_entry};

    ghost Value = { List Pin };

    ghost view = { λ pins. map pin_of_entry pins.entries.items };

    ghost invariant = { λ pins. IsStrictlySortedBy pin_cmp (map pin_of_entry pins.entries.items) };
}

impl PinMap {
    pub fn new(alloc: Global) -> PinMap
        ensures { result ≡ [] }
    {
        PinMap {
            addresses: BTreeMap::new(alloc),
        }
    }

    fn has(&self, key: &PinKey) -> bool
        ensures { result ≡ is_pinned self.now (option_map string_bytes key.now.unit) (string_bytes key.now.name) }
    {
        self.addresses.contains_key(key)
    }

    fn put(&mut self, pin: ReadPin) -> Result<(), AllocError>
        ensures { OnOk result (self.new ≡ with_pin self.old pin) }
    {
        self.addresses.insert(pin.key, pin.address)?;
        Ok(())
    }

    /// The pins in their order.
    #[tactic(auto, using(crate::proofs::PinSets::sorted_pins))]
    pub fn into_pins(self, alloc: Global) -> Result<Pins, AllocError>
        ensures { IfOk result (λ pins. pins ≡ self) }
    {
        let entries = entries_of(alloc, self.addresses)?;
        Ok(Pins { entries })
    }
}

fn entries_of(
    alloc: Global,
    addresses: BTreeMap<PinKey, u32>,
) -> Result<Vec<(PinKey, u32)>, AllocError>
    ensures same { IfOk result (λ entries. entries.items ≡ addresses.entries) }
    ensures sorted { IfOk result (λ entries. IsStrictlySortedBy key_cmp (keys_of entries.items)) }
{
    let entries: Vec<(PinKey, u32)> = addresses.into_iter().collect(alloc)?;
    Ok(entries)
}

/// What is looked for: a unit's name, or a global one.
#[derive(Clone, Copy, Debug, Drop)]
struct Sought<'a> {
    unit: Option<&'a str>,
    name: &'a str,
}

/// How an entry stands to what is looked for.
fn compare(entry: &(PinKey, u32), sought: &Sought) -> Ordering
    ensures { result ≡ pin_cmp (pin_of_entry entry.now) (pin_sought sought.now) }
{
    let (key, _) = entry;
    let units = match (&key.unit, sought.unit) {
        (None, None) => Ordering::Equal,
        (None, Some(_)) => Ordering::Less,
        (Some(_), None) => Ordering::Greater,
        (Some(own), Some(unit)) => own.as_str().cmp(unit),
    };
    match units {
        Ordering::Equal => key.name.as_str().cmp(sought.name),
        other => other,
    }
}

fn place_in(entries: &[(PinKey, u32)], sought: &Sought) -> Result<usize, usize>
    ensures bound { IsSearchInRange result (length entries.now) }
    ensures found { IsBinarySearchResult (λ entry. pin_cmp (pin_of_entry entry) (pin_sought sought.now)) entries.now result }
{
    entries.binary_search_by(|entry| compare(entry, sought))
}

impl Pins {
    /// The address of a unit's name, or of a global one.
    pub fn address(&self, unit: Option<&str>, name: &str) -> Option<u32>
        ensures { result ≡ pin_in self.now (option_map (λ u. u.now) unit.entry) name.now }
    {
        match place_in(&self.entries, &Sought { unit, name }) {
            Ok(place) => Some(self.entries[place].1),
            Err(_) => None,
        }
    }
}

fn text_of_unit(alloc: Global, unit: Option<Name>) -> Result<Option<String>, AllocError>
    ensures { IfOk result (λ text. option_map string_bytes text ≡ unit) }
{
    match unit {
        Some(name) => Ok(Some(String::from_str(alloc, name.text())?)),
        None => Ok(None),
    }
}

fn key_of(alloc: Global, unit: Option<Name>, name: Name) -> Result<PinKey, AllocError>
    ensures unit { IfOk result (λ key. option_map string_bytes key.unit ≡ unit) }
    ensures name { IfOk result (λ key. string_bytes key.name ≡ name) }
{
    let unit = text_of_unit(alloc, unit)?;
    let name = String::from_str(alloc, name.text())?;
    Ok(PinKey { unit, name })
}

#[tactic(auto, unfolding(crate::specs::LayoutTree::unpinned))]
fn unpinned(alloc: Global, pins: &PinMap, key: &PinKey) -> Result<(), ReadError>
    ensures { Gives result
        (unpinned pins.now (option_map string_bytes key.now.unit) (string_bytes key.now.name)) }
{
    if pins.has(key) {
        Err(ReadError::here(alloc, Cause::OutOfRange))
    } else {
        Ok(())
    }
}

/// The pin that a tree is.
#[tactic(auto, unfolding(crate::specs::LayoutTree::pin))]
fn read_pin(alloc: Global, pins: &PinMap, tree: &Value) -> Result<ReadPin, ReadError>
    ensures { Gives result (pin pins.now (view tree.now)) }
{
    object(alloc, tree)?;
    let unit: Option<Name> = field(alloc, tree, "unit")?;
    let name: Name = field(alloc, tree, "name")?;
    let key = key_of(alloc, unit, name)?;
    at_key(alloc, "name", unpinned(alloc, pins, &key))?;
    let address: Address = field(alloc, tree, "address")?;
    Ok(ReadPin {
        key,
        address: address.value(),
    })
}

fn read_each(alloc: Global, values: &[Value]) -> Result<PinMap, ReadError>
    requires { length values.now < 2 ^ 32 }
    ensures { Gives result (pins_from [] 0 (map view values.now)) }
{
    let mut pins = PinMap::new(alloc);
    let mut index = 0u32;
    for value in values {
        let pin = at_index(alloc, index, read_pin(alloc, &pins, value))?;
        pins.put(pin)?;
        index += 1;
    }
    Ok(pins)
}

#[tactic(auto, unfolding(crate::specs::LayoutTree::pins), using(json_tree::proofs::Items::array_tools))]
impl Tree for Pins {
    ghost reads = { pins };

    fn read(alloc: Global, tree: &Value) -> Result<Pins, ReadError> {
        let values = items(alloc, tree)?;
        limited(alloc, values, MOST_PINS)?;
        let pins = read_each(alloc, values)?;
        Ok(pins.into_pins(alloc)?)
    }
}
