//! Units as texts.

ghost use Rattle.std.specs.Prelude.{◌≡◌, ◌^◌, IfOk, IsTrue, Ok, nat_le};
ghost use Rattle.std.specs.List.{list_any};
ghost use Rattle.serde_json.specs.View.{view};
ghost use Rattle.serde_json.specs.Written.{compact_text};
ghost use Rattle.asm_shapes.specs.Units.{unit_fits};
ghost use Rattle.dump_reader.specs.UnitTree.{UnitTree};
ghost use Rattle.dump_reader.specs.DumpFile.{unit_file};
ghost use Rattle.dump_model.specs.UnitTree.{unit_data};
ghost use Rattle.dump_model.specs.Written.{has_buffer, version_of, UnitsReadBack};

use crate::external::externals_value;
use crate::tree::list_value;
use crate::types::Typed;
use asm_shapes::unit_fits;
use asm_syntax::unit::{External, Unit};
use serde_json::{Value, json};
use std::alloc::{AllocError, Global};

/// The newest version, which has all that a unit may have.
const NEWEST: u32 = 2;

/// Whether a unit can be written: names are distinct, each function and signature has its shape, and each count is inside the profile.
/// What the types ensure is not tested. It takes no memory, so its time grows with the square of the number of names and of a
/// function's size; every unit that is read passes, so none of those needs the test.
pub fn valid_unit(u: &Unit) -> bool
    ensures { result ≡ unit_fits u.now }
{
    unit_fits(u)
}

fn has_buffer(e: &External) -> bool
    ensures { result ≡ has_buffer e.now }
{
    match &e.sig {
        Some(sig) => !sig.buffers.items().is_empty(),
        None => false,
    }
}

fn some_has_buffer(externals: &[External]) -> bool
    ensures { result ≡ list_any has_buffer externals.now }
{
    externals.iter().any(|e| has_buffer(e))
}

/// The oldest version that has all of a unit.
fn version_of(u: &Unit) -> u32
    ensures version { result ≡ version_of u.now }
    ensures newest { IsTrue (nat_le result NEWEST) }
{
    if some_has_buffer(u.externals.items()) {
        2
    } else {
        1
    }
}

fn tree_of(alloc: Global, u: &Unit, version: u32) -> Result<Value, AllocError>
    ensures { IfOk result (λ value. view value ≡ unit_data version u.now) }
{
    let functions = list_value(alloc, u.functions.items())?;
    let variables = list_value(alloc, u.variables.items())?;
    let externals = externals_value(alloc, u.externals.items(), version)?;
    json!(in alloc; {
        "valex": "unit",
        "version": version,
        "unit": u.name.text(),
        "functions": functions,
        "variables": variables,
        "externals": externals,
    })
}

#[tactic(auto, using(dump_model::proofs::Units::unit_back))]
fn value_in(alloc: Global, u: &Unit, version: u32) -> Result<Value, AllocError>
    requires fits { IsTrue (unit_fits u.now) }
    requires all { IsTrue (nat_le (version_of u.now) version) }
    requires newest { IsTrue (nat_le version NEWEST) }
    ensures tree { IfOk result (λ value. view value ≡ unit_data version u.now) }
    ensures back { IfOk result (λ value. UnitTree (view value) u.now) }
{
    u.types();
    let tree = tree_of(alloc, u, version)?;
    Ok(tree)
}

#[tactic(auto, using(dump_model::proofs::Files::back))]
fn text_in(alloc: Global, u: &Unit, version: u32) -> Result<Vec<u8>, AllocError>
    requires fits { IsTrue (unit_fits u.now) }
    requires all { IsTrue (nat_le (version_of u.now) version) }
    requires newest { IsTrue (nat_le version NEWEST) }
    ensures text { IfOk result (λ bytes. bytes.items ≡ compact_text (unit_data version u.now)) }
    ensures back { IfOk result (λ bytes. unit_file bytes.items ≡ Ok u.now) }
{
    u.types();
    let tree = tree_of(alloc, u, version)?;
    let bytes = tree.to_vec(alloc)?;
    Ok(bytes)
}

/// The tree of a unit, with all its keys, in version 2 where some signature has a buffer, else in version 1.
#[tactic(auto, using(dump_model::proofs::Units::versions))]
pub fn unit_value(alloc: Global, u: &Unit) -> Result<Value, AllocError>
    requires { IsTrue (unit_fits u.now) }
    ensures tree { IfOk result (λ value. view value ≡ unit_data (version_of u.now) u.now) }
    ensures back { IfOk result (λ value. UnitTree (view value) u.now) }
{
    let version = version_of(u);
    let tree = value_in(alloc, u, version)?;
    Ok(tree)
}

/// The compact text of a unit, in which the keys of an object stand in ascending order of their bytes. Reading it gives the unit.
/// It is in version 2 where some signature has a buffer, else in version 1.
#[tactic(auto, using(dump_model::proofs::Units::versions))]
pub fn write_unit(alloc: Global, u: &Unit) -> Result<Vec<u8>, AllocError>
    requires { IsTrue (unit_fits u.now) }
    ensures text { IfOk result (λ bytes. bytes.items ≡ compact_text (unit_data (version_of u.now) u.now)) }
    ensures back { IfOk result (λ bytes. unit_file bytes.items ≡ Ok u.now) }
{
    let version = version_of(u);
    let bytes = text_in(alloc, u, version)?;
    Ok(bytes)
}

/// The tree of a unit in version 2.
#[tactic(auto, using(dump_model::proofs::Units::versions))]
pub fn unit_value_2(alloc: Global, u: &Unit) -> Result<Value, AllocError>
    requires { IsTrue (unit_fits u.now) }
    ensures tree { IfOk result (λ value. view value ≡ unit_data 2 u.now) }
    ensures back { IfOk result (λ value. UnitTree (view value) u.now) }
{
    let tree = value_in(alloc, u, NEWEST)?;
    Ok(tree)
}

/// The compact text of a unit in version 2. Reading it gives the unit.
#[tactic(auto, using(dump_model::proofs::Units::versions))]
pub fn write_unit_2(alloc: Global, u: &Unit) -> Result<Vec<u8>, AllocError>
    requires { IsTrue (unit_fits u.now) }
    ensures text { IfOk result (λ bytes. bytes.items ≡ compact_text (unit_data 2 u.now)) }
    ensures back { IfOk result (λ bytes. unit_file bytes.items ≡ Ok u.now) }
{
    let bytes = text_in(alloc, u, NEWEST)?;
    Ok(bytes)
}

/// What is written for a unit that fits is read as that unit, in every version that has all of it.
#[tactic(auto, using(dump_model::proofs::Units::unit_back))]
pub fn written_units_read_back()
    ensures { UnitsReadBack }
{}
