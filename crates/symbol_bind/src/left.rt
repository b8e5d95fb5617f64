//! What all uses leave open for each key.

ghost use Rattle.std.specs.Prelude.{◌≡◌, ◌<◌, ◌++◌, [], List, IfOk, Some, length, slice_get};
ghost use Rattle.layout_model.specs.Layouts.{Layout};
ghost use Rattle.link_model.specs.Candidates.{candidates};
ghost use Rattle.link_model.specs.Program.{keys};
ghost use Rattle.link_model.specs.Uses.{Use, all_uses, key_uses};
ghost use Rattle.name_addresses.specs.Given.{given};
ghost use Rattle.name_addresses.specs.Keys.{declared, ItemFits};
ghost use Rattle.symbol_bind.specs.Offers.{all_offered};
ghost use Rattle.symbol_bind.specs.Open.{AreOpen};

use crate::address_set::AddressSet;
use crate::known::known_address;
use crate::offers::Offers;
use crate::uses::note_key;
use elf_view::LoadedSegments;
use layout_file::layout::Layout;
use name_addresses::keys::{Key, KeyedProgram};
use std::alloc::{AllocError, Global};

/// All addresses, for each of `n` keys.
fn all_open(alloc: Global, n: usize) -> Result<Vec<AddressSet>, AllocError>
    ensures count { IfOk result (λ v. length v.items ≡ n) }
    ensures open { IfOk result (λ v. (l : Layout) → AreOpen l [] v.items) }
{
    vec![in alloc; AddressSet::all(); n]
}

/// The uses in what a key stands for, if its address is known.
fn note_known<P: KeyedProgram>(
    sets: &mut [AddressSet],
    segments: &LoadedSegments,
    layout: &Layout,
    program: &P,
    key: &Key,
    offered: &[u32],
)
    requires unit { key.now.unit < length (P.program program.now).units }
    requires fits { ItemFits key.now.item }
    requires offered { offered.now ≡ candidates segments.now (declared key.now) }
    ensures same { length sets.new ≡ length sets.old }
    ensures open { (us : List Use) → AreOpen layout.now us sets.old
        → AreOpen layout.now (us ++ key_uses (given segments.now layout.now (P.program program.now)) (declared key.now)) sets.new }
{
    if let Some(at) = known_address(layout, program, key, offered) {
        note_key(sets, segments, layout, program, key, at);
    }
}

/// What all uses in a program leave open for each of its keys.
pub fn open_sets<P: KeyedProgram>(
    alloc: Global,
    segments: &LoadedSegments,
    layout: &Layout,
    program: &P,
    offers: &Offers,
) -> Result<Vec<AddressSet>, AllocError>
    requires { offers.now ≡ all_offered segments.now.symbols (keys (P.program program.now).units) }
    ensures count { IfOk result (λ sets. length sets.items ≡ length (keys (P.program program.now).units)) }
    ensures open { IfOk result (λ sets.
        AreOpen layout.now (all_uses (given segments.now layout.now (P.program program.now))) sets.items) }
{
    let count = program.key_count();
    let mut sets = all_open(alloc, count as usize)?;
    for k in 0..count {
        let key = program.key(k);
        note_known(&mut sets, segments, layout, program, &key, offers.set(k));
    }
    Ok(sets)
}
