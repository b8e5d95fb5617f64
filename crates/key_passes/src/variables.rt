//! The places of variables.

ghost use Rattle.std.specs.Prelude.{◌≡◌, ◌<◌, ◌≤◌, ◌++◌, ◌∷◌, [], length, slice_get, Some, OnOk};
ghost use Rattle.std.specs.List.{flat_map};
ghost use Rattle.limits.specs.declared.TheConstants.{MOST_VARIABLE_BYTES};
ghost use Rattle.ordered_tests.specs.Checks.{first_fault};
ghost use Rattle.asm_syntax.specs.Sizes.{variable_size};
ghost use Rattle.code_model.specs.WordChecks.{spot};
ghost use Rattle.asm_syntax.specs.declared.rule.Rule.TheVariants as rules;
ghost use Rattle.code_model.specs.Variables.{data_range, variable_checks};
ghost use Rattle.link_model.specs.Program.{OfVariable, keys, name_of};
ghost use Rattle.link_model.specs.Numbers.{unit_name};
ghost use Rattle.link_model.specs.Binding.{numbered_keys, key_address, symbol_address};
ghost use Rattle.link_model.specs.Claims.{claim, key_variables};
ghost use Rattle.link_model.specs.Parts.{alignment};
ghost use Rattle.link_model.specs.declared.owner.Owner.TheVariants as owners;
ghost use Rattle.link_model.specs.Passes.{item_variable_checks, variable_pass};
ghost use Rattle.name_addresses.specs.Keys.{declared, ItemFits};
ghost use Rattle.name_addresses.specs.Given.{given};
ghost use Rattle.key_passes.specs.Answers.{Decides, fault_of};
ghost use Rattle.data_match.specs.Faults.{spot_of};

use crate::bound_program::BoundProgram;
use crate::claims::add_variable;
use crate::fault::{CheckFault, fault_in};
use crate::unit_addresses::UnitAddresses;
use asm_syntax::rule::Rule;
use asm_syntax::unit::Variable;
use code_model::spot::Spot;
use coverage::claims::Claims;
use data_match::fault::DataFault;
use data_match::matching::match_variable;
use name_addresses::keys::{Key, KeyItem, KeyedProgram};
use std::alloc::Global;

/// Stands for a byte that is not loaded.
const NO_BYTE: u32 = 0x100;

fn place_spot(item: u32, address: u32) -> Spot
    ensures { result ≡ spot rules.DataPlace 0 item 0 address }
{
    Spot {
        rule: Rule::DataPlace,
        offset: 0,
        item,
        wanted: 0,
        found: address,
    }
}

fn bytes_spot(offset: u32, wanted: u8, found: u32) -> Spot
    ensures { result ≡ spot rules.DataBytes offset 0 wanted found }
{
    Spot {
        rule: Rule::DataBytes,
        offset,
        item: 0,
        wanted: u32::from(wanted),
        found,
    }
}

/// Where and how a variable at an address fails.
fn spot_of(address: u32, fault: DataFault) -> Spot
    ensures { result ≡ spot_of address fault }
{
    match fault {
        DataFault::Bytes(offset, wanted, Some(found)) => {
            bytes_spot(offset, wanted, u32::from(found))
        }
        DataFault::Bytes(offset, wanted, None) => bytes_spot(offset, wanted, NO_BYTE),
        DataFault::Align => place_spot(2, address),
        DataFault::Area => place_spot(3, address),
        DataFault::Flags => place_spot(4, address),
    }
}

/// Key `k`, a variable of a unit: its bytes and its place, and its claim.
fn place_variable<P: KeyedProgram>(
    alloc: Global,
    bound: &BoundProgram<P>,
    claims: &mut Claims,
    k: u32,
    unit: u32,
    variable: &Variable,
) -> Result<(), CheckFault>
    requires key { slice_get (keys (P.program bound.now.program.now).units) k
        ≡ Some (record { unit = unit; item = OfVariable variable.now }) }
    requires unit { unit < length (P.program bound.now.program.now).units }
    requires size { variable_size variable.now.init ≤ MOST_VARIABLE_BYTES }
    ensures places { let g = given bound.now.segments.now bound.now.layout.now (P.program bound.now.program.now) in
        let a = key_address bound.now.addresses.now k in
        Decides (fault_of (unit_name g.program.units unit) variable.now.name (first_fault (variable_checks g.image g.layout
        (symbol_address g bound.now.addresses.now unit) (alignment g unit variable.now) a variable.now))) result }
    ensures claims { let g = given bound.now.segments.now bound.now.layout.now (P.program bound.now.program.now) in
        let a = key_address bound.now.addresses.now k in
        OnOk result (claims.new ≡ claims.old ++ claim (data_range a variable.now)
        (owners.Variable (unit_name g.program.units unit) variable.now.name) ∷ []) }
{
    let names = UnitAddresses {
        program: bound.program,
        unit,
        addresses: bound.addresses,
    };
    let unit = bound.program.unit_name(unit);
    let alignment = bound.program.alignment(k);
    let a = bound.address(k);
    match match_variable(variable, alignment, a, &names, bound.segments, bound.layout) {
        Ok(range) => {
            add_variable(alloc, claims, unit, &variable.name, range)?;
            Ok(())
        }
        Err(fault) => Err(fault_in(alloc, unit, &variable.name, spot_of(a, fault))),
    }
}

/// Key `k`, if it is a variable.
fn match_key<P: KeyedProgram>(
    alloc: Global,
    bound: &BoundProgram<P>,
    claims: &mut Claims,
    k: u32,
    key: &Key,
) -> Result<(), CheckFault>
    requires key { slice_get (keys (P.program bound.now.program.now).units) k ≡ Some (declared key.now) }
    requires unit { key.now.unit < length (P.program bound.now.program.now).units }
    requires fits { ItemFits key.now.item }
    ensures places { let g = given bound.now.segments.now bound.now.layout.now (P.program bound.now.program.now) in
        let d = declared key.now in
        Decides (fault_of (unit_name g.program.units d.unit) (name_of d)
        (first_fault (item_variable_checks g bound.now.addresses.now k d.unit d.item))) result }
    ensures claims { let g = given bound.now.segments.now bound.now.layout.now (P.program bound.now.program.now) in
        OnOk result (claims.new ≡ claims.old ++ key_variables g bound.now.addresses.now (k, declared key.now)) }
{
    match key.item {
        KeyItem::Variable(variable) => place_variable(alloc, bound, claims, k, key.unit, variable),
        _ => Ok(()),
    }
}

/// Each variable: its bytes, its alignment, its area and the flags of its segments; and the claims of all, in the order of the keys.
#[tactic(auto, unfolding(link_model::specs::Passes::variable_pass))]
pub fn variable_pass<P: KeyedProgram>(
    alloc: Global,
    bound: &BoundProgram<P>,
    claims: &mut Claims,
) -> Result<(), CheckFault>
    ensures places { let g = given bound.now.segments.now bound.now.layout.now (P.program bound.now.program.now) in
        Decides (first_fault (variable_pass g bound.now.addresses.now)) result }
    ensures claims { let g = given bound.now.segments.now bound.now.layout.now (P.program bound.now.program.now) in
        OnOk result (claims.new ≡ claims.old ++ flat_map (key_variables g bound.now.addresses.now) (numbered_keys g)) }
{
    for k in 0..bound.program.key_count() {
        let key = bound.program.key(k);
        match_key(alloc, bound, claims, k, &key)?;
    }
    Ok(())
}
