//! The places of external keys.

ghost use Rattle.std.specs.Prelude.{◌≡◌, ◌<◌, ◌≤◌, ◌+◌, length, slice_get, Some, OnOk};
ghost use Rattle.std.specs.Ordering.{nat_cmp};
ghost use Rattle.std.specs.BTreeSet.{contains};
ghost use Rattle.ordered_tests.specs.Checks.{first_fault};
ghost use Rattle.link_model.specs.Program.{OfExternal, keys, name_of};
ghost use Rattle.asm_syntax.specs.declared.rule.Rule.TheVariants as rules;
ghost use Rattle.code_model.specs.WordChecks.{spot};
ghost use Rattle.link_model.specs.Numbers.{externals, item_externals, unit_name};
ghost use Rattle.link_model.specs.Binding.{key_address};
ghost use Rattle.link_model.specs.Passes.{external_checks, item_external_checks, external_pass};
ghost use Rattle.name_addresses.specs.Keys.{declared};
ghost use Rattle.name_addresses.specs.Given.{given};
ghost use Rattle.key_passes.specs.Answers.{Decides, fault_of};
ghost use Rattle.key_passes.specs.Externals.{AreSeen};

use crate::bound_program::BoundProgram;
use crate::fault::{CheckFault, fault_in};
use crate::seen_addresses::{add, has};
use asm_syntax::rule::Rule;
use asm_syntax::unit::External;
use code_model::spot::Spot;
use name_addresses::keys::{Key, KeyItem, KeyedProgram};
use std::alloc::Global;
use std::collections::BTreeSet;

fn external_spot(item: u32, a: u32) -> Spot
    ensures { result ≡ spot rules.ExternalPlace 0 item 0 a }
{
    Spot {
        rule: Rule::ExternalPlace,
        offset: 0,
        item,
        wanted: 0,
        found: a,
    }
}

/// The first fault of the place of key `k`, an external.
fn place_fault<P: KeyedProgram>(
    bound: &BoundProgram<P>,
    seen: &BTreeSet<u32>,
    k: u32,
    external: &External,
) -> Option<Spot>
    requires { let g = given bound.now.segments.now bound.now.layout.now (P.program bound.now.program.now) in
        AreSeen g bound.now.addresses.now k (contains nat_cmp seen.now) }
    ensures { let g = given bound.now.segments.now bound.now.layout.now (P.program bound.now.program.now) in
        result ≡ first_fault (external_checks g bound.now.addresses.now k (key_address bound.now.addresses.now k) external.now) }
{
    let a = bound.address(k);
    if external.sig.is_some() && a % 4 != 0 {
        return Some(external_spot(1, a));
    }
    if !bound.layout.is_foreign(a) {
        return Some(external_spot(2, a));
    }
    if has(seen, a) {
        return Some(external_spot(3, a));
    }
    None
}

/// Key `k`, an external of a unit: its place, and its address among those that are seen.
fn place_external<P: KeyedProgram>(
    alloc: Global,
    bound: &BoundProgram<P>,
    seen: &mut BTreeSet<u32>,
    k: u32,
    unit: u32,
    external: &External,
) -> Result<(), CheckFault>
    requires key { slice_get (keys (P.program bound.now.program.now).units) k
        ≡ Some (record { unit = unit; item = OfExternal external.now }) }
    requires unit { unit < length (P.program bound.now.program.now).units }
    requires seen { let g = given bound.now.segments.now bound.now.layout.now (P.program bound.now.program.now) in
        AreSeen g bound.now.addresses.now k (contains nat_cmp seen.old) }
    ensures places { let g = given bound.now.segments.now bound.now.layout.now (P.program bound.now.program.now) in
        let a = key_address bound.now.addresses.now k in
        Decides (fault_of (unit_name g.program.units unit) external.now.name
        (first_fault (external_checks g bound.now.addresses.now k a external.now))) result }
    ensures seen { let g = given bound.now.segments.now bound.now.layout.now (P.program bound.now.program.now) in
        OnOk result (AreSeen g bound.now.addresses.now (k + 1) (contains nat_cmp seen.new)) }
{
    if let Some(spot) = place_fault(bound, seen, k, external) {
        let unit = bound.program.unit_name(unit);
        return Err(fault_in(alloc, unit, &external.name, spot));
    }
    add(seen, bound.address(k))?;
    Ok(())
}

/// Key `k`, if it is an external.
fn match_key<P: KeyedProgram>(
    alloc: Global,
    bound: &BoundProgram<P>,
    seen: &mut BTreeSet<u32>,
    k: u32,
    key: &Key,
) -> Result<(), CheckFault>
    requires key { slice_get (keys (P.program bound.now.program.now).units) k ≡ Some (declared key.now) }
    requires unit { key.now.unit < length (P.program bound.now.program.now).units }
    requires seen { let g = given bound.now.segments.now bound.now.layout.now (P.program bound.now.program.now) in
        AreSeen g bound.now.addresses.now k (contains nat_cmp seen.old) }
    ensures places { let g = given bound.now.segments.now bound.now.layout.now (P.program bound.now.program.now) in
        let d = declared key.now in
        Decides (fault_of (unit_name g.program.units d.unit) (name_of d)
        (first_fault (item_external_checks g bound.now.addresses.now k d.item))) result }
    ensures seen { let g = given bound.now.segments.now bound.now.layout.now (P.program bound.now.program.now) in
        OnOk result (AreSeen g bound.now.addresses.now (k + 1) (contains nat_cmp seen.new)) }
{
    match key.item {
        KeyItem::External(external) => place_external(alloc, bound, seen, k, key.unit, external),
        KeyItem::Function(_) => Ok(()),
        KeyItem::Variable(_) => Ok(()),
    }
}

/// That each external key is in a foreign range, aligned where it may be called, and apart from the others. The time is near linear
/// in the keys.
#[tactic(auto, unfolding(link_model::specs::Passes::external_pass))]
pub fn external_pass<P: KeyedProgram>(
    alloc: Global,
    bound: &BoundProgram<P>,
) -> Result<(), CheckFault>
    ensures { let g = given bound.now.segments.now bound.now.layout.now (P.program bound.now.program.now) in
        Decides (first_fault (external_pass g bound.now.addresses.now)) result }
{
    let mut seen = BTreeSet::new(alloc);
    for k in 0..bound.program.key_count() {
        let key = bound.program.key(k);
        match_key(alloc, bound, &mut seen, k, &key)?;
    }
    Ok(())
}

/// 1 for an external key.
fn external_count(key: &Key) -> u32
    ensures count { result ≡ length (item_externals (declared key.now).item) }
    ensures one { result ≤ 1 }
{
    match key.item {
        KeyItem::External(_) => 1,
        _ => 0,
    }
}

/// How many external keys there are.
pub fn count_externals<P: KeyedProgram>(program: &P) -> u32
    ensures { result ≡ length (externals (P.program program.now).units) }
{
    let mut count = 0;
    for k in 0..program.key_count() {
        let key = program.key(k);
        count += external_count(&key);
    }
    count
}
