//! The address of each key, or the first key that has none.

ghost use Rattle.std.specs.Prelude.{◌≡◌, ◌<◌, ◌^◌, ℕ, All, List, IfOk, IfErr, Some, true, count_by, is_some, length, map};
ghost use Rattle.std.specs.List.{find, list_all};
ghost use Rattle.image_model.specs.Image.{Image};
ghost use Rattle.link_model.specs.Binding.{addresses, binding, fault_of_key, key_address};
ghost use Rattle.link_model.specs.Candidates.{candidates};
ghost use Rattle.link_model.specs.Program.{keys};
ghost use Rattle.link_model.specs.Uses.{Use, all_uses};
ghost use Rattle.name_addresses.specs.Given.{given};
ghost use Rattle.name_addresses.specs.Keys.{declared};
ghost use Rattle.symbol_bind.specs.AddressSets.{contains};
ghost use Rattle.symbol_bind.specs.Bound.{IsFirstUnbound, SettlesKey};
ghost use Rattle.symbol_bind.specs.Offers.{all_offered};
ghost use Rattle.symbol_bind.specs.Open.{AreOpen, IsOpen};

use crate::address_set::AddressSet;
use crate::known::known_address;
use crate::left::open_sets;
use crate::offers::{Offers, gather_offers};
use elf_view::{ElfView, LoadedSegments};
use layout_file::layout::Layout;
use link_model::link_error::BindFault;
use name_addresses::keys::{Key, KeyedProgram};
use std::alloc::{AllocError, Global};
use std::marker::Model;
use symbol_index::index::SymIndex;

/// The address of each key of a program, by the key's number.
#[derive(Debug, Drop)]
pub struct Binding {
    addresses: Vec<u32>,
}

impl Model for Binding {
    ghost use Rattle.std.specs.Prelude.{List, ℕ, length, ◌<◌, ◌^◌};

    ghost Value = { List ℕ };

    ghost view = { λ binding. binding.addresses.items };

    ghost invariant = { λ binding. length binding.addresses.items < 2 ^ 32 };
}

impl Binding {
    /// How many keys there are.
    pub fn count(&self) -> u32
        ensures { result ≡ length self.now }
    {
        self.addresses.len() as u32
    }

    pub fn addr(&self, key: u32) -> u32
        requires { key < length self.now }
        ensures { result ≡ key_address self.now key }
    {
        self.addresses[key as usize]
    }

    pub fn addresses(&self) -> &[u32]
        ensures { result.now ≡ self.now }
    {
        &self.addresses
    }
}

/// How many candidates of a key are open.
fn count_open(offered: &[u32], set: &AddressSet) -> usize
    ensures { result ≡ count_by (contains set.now) offered.now }
{
    offered.iter().filter(|t| set.contains(**t)).count()
}

/// The first candidate of a key that is open.
fn first_open(offered: &[u32], set: &AddressSet) -> Option<u32>
    ensures { result ≡ find (contains set.now) offered.now }
{
    offered.iter().copied().find(|t| set.contains(*t))
}

/// The fault of a key none of whose candidates is open.
fn fault_of_none(k: u32, offered: &[u32]) -> BindFault
    ensures { result ≡ fault_of_key k (length offered.now) 0 }
{
    if offered.is_empty() {
        BindFault::NoSymbol(k)
    } else {
        BindFault::NoneFits(k)
    }
}

/// The address of a key.
fn settle<P: KeyedProgram>(
    layout: &Layout,
    program: &P,
    k: u32,
    key: &Key,
    offered: &[u32],
    set: &AddressSet,
) -> Result<u32, BindFault>
    requires unit { key.now.unit < length (P.program program.now).units }
    requires few { length offered.now < 2 ^ 32 }
    ensures { (v : Image) (uses : List Use) → offered.now ≡ candidates v (declared key.now) → IsOpen layout.now uses k set.now
        → SettlesKey (given v layout.now (P.program program.now)) uses (k, declared key.now) result }
{
    if let Some(address) = known_address(layout, program, key, offered) {
        return Ok(address);
    }
    let Some(address) = first_open(offered, set) else {
        return Err(fault_of_none(k, offered));
    };
    let count = count_open(offered, set);
    if count == 1 {
        Ok(address)
    } else {
        Err(BindFault::SeveralFit(k, count as u32))
    }
}

/// The addresses of all keys, by what is offered and what is open for each.
fn settle_all<P: KeyedProgram>(
    alloc: Global,
    layout: &Layout,
    program: &P,
    offers: &Offers,
    sets: &[AddressSet],
) -> Result<Vec<u32>, BindFault>
    requires offers { length offers.now ≡ length (keys (P.program program.now).units) }
    requires sets { length sets.now ≡ length (keys (P.program program.now).units) }
    requires few { All (λ set. length set < 2 ^ 32) offers.now }
    ensures binding { (v : Image) → offers.now ≡ all_offered v.symbols (keys (P.program program.now).units)
        → AreOpen layout.now (all_uses (given v layout.now (P.program program.now))) sets.now
        → IfOk result (λ addresses. map (λ a. Some a) addresses.items ≡ binding (given v layout.now (P.program program.now))) }
    ensures fault { (v : Image) → offers.now ≡ all_offered v.symbols (keys (P.program program.now).units)
        → AreOpen layout.now (all_uses (given v layout.now (P.program program.now))) sets.now
        → IfErr result (IsFirstUnbound (given v layout.now (P.program program.now))) }
    ensures few { IfOk result (λ addresses. length addresses.items < 2 ^ 32) }
{
    let mut addresses = Vec::new(alloc);
    let count = program.key_count();
    for k in 0..count {
        let key = program.key(k);
        match settle(layout, program, k, &key, offers.set(k), &sets[k as usize]) {
            Ok(address) => match addresses.push(address) {
                Ok(()) => {}
                Err(_) => return Err(BindFault::Memory),
            },
            Err(fault) => return Err(fault),
        }
    }
    Ok(addresses)
}

/// What symbols offer and what uses leave open for each key.
fn gather<P: KeyedProgram>(
    alloc: Global,
    view: &ElfView,
    layout: &Layout,
    program: &P,
) -> Result<(Offers, Vec<AddressSet>), AllocError>
    ensures offers { IfOk result (λ r. r.0 ≡ all_offered view.now.symbols (keys (P.program program.now).units)) }
    ensures few { IfOk result (λ r. All (λ set. length set < 2 ^ 32) r.0) }
    ensures sets { IfOk result (λ r. length r.1.items ≡ length (keys (P.program program.now).units)) }
    ensures open { IfOk result (λ r. AreOpen layout.now (all_uses (given view.now layout.now (P.program program.now))) r.1.items) }
{
    let index = SymIndex::build(alloc, view)?;
    let offers = gather_offers(alloc, &index, program)?;
    let segments = LoadedSegments::read(alloc, view)?;
    let sets = open_sets(alloc, &segments, layout, program, &offers)?;
    Ok((offers, sets))
}

/// The address of each key: its pin, else its only candidate, else the only one that agrees with all uses in functions and
/// variables whose address is known. The fault is that of the first key without an address.
pub fn bind<P: KeyedProgram>(
    alloc: Global,
    view: &ElfView,
    layout: &Layout,
    program: &P,
) -> Result<Binding, BindFault>
    ensures addresses { IfOk result (λ b. b ≡ addresses (given view.now layout.now (P.program program.now))) }
    ensures bound { IfOk result (λ b. list_all (λ a. is_some a) (binding (given view.now layout.now (P.program program.now))) ≡ true) }
    ensures fault { IfErr result (IsFirstUnbound (given view.now layout.now (P.program program.now))) }
{
    let (offers, sets) = match gather(alloc, view, layout, program) {
        Ok(gathered) => gathered,
        Err(_) => return Err(BindFault::Memory),
    };
    match settle_all(alloc, layout, program, &offers, &sets) {
        Ok(addresses) => Ok(Binding { addresses }),
        Err(fault) => Err(fault),
    }
}
