//! The places of functions and of their tables.

ghost use Rattle.std.specs.Prelude.{◌≡◌, ◌<◌, ◌≤◌, ◌++◌, ◌∷◌, length, true, OnOk};
ghost use Rattle.std.specs.List.{flat_map, list_all};
ghost use Rattle.limits.specs.declared.TheConstants.{MOST_INSTRUCTIONS};
ghost use Rattle.asm_shapes.specs.Units.{table_fits};
ghost use Rattle.code_model.specs.FunctionChecks.{function_checks};
ghost use Rattle.link_model.specs.Program.{name_of};
ghost use Rattle.ordered_tests.specs.Checks.{first_fault};
ghost use Rattle.link_model.specs.Numbers.{unit_name};
ghost use Rattle.link_model.specs.Binding.{numbered_keys, key_address, symbol_address};
ghost use Rattle.link_model.specs.Claims.{claim, code_range, table_claims, key_functions};
ghost use Rattle.link_model.specs.declared.owner.Owner.TheVariants as owners;
ghost use Rattle.link_model.specs.Passes.{item_function_checks, function_pass};
ghost use Rattle.name_addresses.specs.Keys.{declared, ItemFits};
ghost use Rattle.name_addresses.specs.Given.{given};
ghost use Rattle.key_passes.specs.Answers.{Decides, fault_of};

use crate::bound_program::BoundProgram;
use crate::claims::add_function;
use crate::fault::{CheckFault, fault_in};
use crate::unit_addresses::UnitAddresses;
use asm_shapes::IndexedCode;
use asm_syntax::instr::Function;
use coverage::claims::Claims;
use expansions::function::{CodeFault, match_function};
use name_addresses::keys::{Key, KeyItem, KeyedProgram};
use std::alloc::Global;

/// Key `k`, a function of a unit: its place, its words and its tables, and their claims.
fn place_function<P: KeyedProgram>(
    alloc: Global,
    bound: &BoundProgram<P>,
    claims: &mut Claims,
    k: u32,
    unit: u32,
    function: &Function,
) -> Result<(), CheckFault>
    requires unit { unit < length (P.program bound.now.program.now).units }
    requires few { length function.now.code ≤ MOST_INSTRUCTIONS }
    requires tables { list_all table_fits function.now.code ≡ true }
    ensures places { let g = given bound.now.segments.now bound.now.layout.now (P.program bound.now.program.now) in
        let a = key_address bound.now.addresses.now k in
        Decides (fault_of (unit_name g.program.units unit) function.now.name (first_fault (function_checks g.image g.layout
        (symbol_address g bound.now.addresses.now unit) a function.now.code))) result }
    ensures claims { let g = given bound.now.segments.now bound.now.layout.now (P.program bound.now.program.now) in
        let a = key_address bound.now.addresses.now k in let name = unit_name g.program.units unit in
        OnOk result (claims.new ≡ claims.old ++ (claim (code_range g.image a function.now.code) (owners.Function name function.now.name)
        ∷ table_claims g.image (owners.Table name function.now.name) a a function.now.code)) }
{
    let names = UnitAddresses {
        program: bound.program,
        unit,
        addresses: bound.addresses,
    };
    let unit = bound.program.unit_name(unit);
    let code = IndexedCode::new(alloc, function.code.items())?;
    let base = bound.address(k);
    match match_function(alloc, bound.segments, bound.layout, &names, base, &code) {
        Ok(placed) => {
            add_function(alloc, claims, unit, &function.name, &placed)?;
            Ok(())
        }
        Err(CodeFault::No(spot)) => Err(fault_in(alloc, unit, &function.name, spot)),
        Err(CodeFault::Memory) => Err(CheckFault::Memory),
    }
}

/// Key `k`, if it is a function.
fn match_key<P: KeyedProgram>(
    alloc: Global,
    bound: &BoundProgram<P>,
    claims: &mut Claims,
    k: u32,
    key: &Key,
) -> Result<(), CheckFault>
    requires unit { key.now.unit < length (P.program bound.now.program.now).units }
    requires fits { ItemFits key.now.item }
    ensures places { let g = given bound.now.segments.now bound.now.layout.now (P.program bound.now.program.now) in
        let d = declared key.now in
        Decides (fault_of (unit_name g.program.units d.unit) (name_of d)
        (first_fault (item_function_checks g bound.now.addresses.now k d.unit d.item))) result }
    ensures claims { let g = given bound.now.segments.now bound.now.layout.now (P.program bound.now.program.now) in
        OnOk result (claims.new ≡ claims.old ++ key_functions g bound.now.addresses.now (k, declared key.now)) }
{
    match key.item {
        KeyItem::Function(function) => place_function(alloc, bound, claims, k, key.unit, function),
        _ => Ok(()),
    }
}

/// Each function: its place, each instruction's words and its table; and the claims of all, in the order of the keys.
#[tactic(auto, unfolding(link_model::specs::Passes::function_pass))]
pub fn function_pass<P: KeyedProgram>(
    alloc: Global,
    bound: &BoundProgram<P>,
    claims: &mut Claims,
) -> Result<(), CheckFault>
    ensures places { let g = given bound.now.segments.now bound.now.layout.now (P.program bound.now.program.now) in
        Decides (first_fault (function_pass g bound.now.addresses.now)) result }
    ensures claims { let g = given bound.now.segments.now bound.now.layout.now (P.program bound.now.program.now) in
        OnOk result (claims.new ≡ claims.old ++ flat_map (key_functions g bound.now.addresses.now) (numbered_keys g)) }
{
    for k in 0..bound.program.key_count() {
        let key = bound.program.key(k);
        match_key(alloc, bound, claims, k, &key)?;
    }
    Ok(())
}
