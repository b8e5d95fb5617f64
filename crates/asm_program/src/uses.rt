//! The names that a unit refers to, and those that it defines or declares.

ghost use Rattle.std.specs.Prelude.{◌≡◌, ◌++◌, ◌≤◌, ◌||◌, List, ℕ, length, map, OnOk, IfOk};
ghost use Rattle.std.specs.List.{list_any};
ghost use Rattle.std.specs.Str.{bytes_eq};
ghost use Rattle.limits.specs.declared.TheConstants.{MOST_UNITS};
ghost use Rattle.ordered_tests.specs.Answers.{Answers};
ghost use Rattle.ordered_tests.specs.Steps.{all_pass};
ghost use Rattle.asm_shapes.specs.Units.{function_name, variable_name, external_name};
ghost use Rattle.link_model.specs.Program.{function_names, variable_names, names_in, names_used};
ghost use Rattle.link_model.specs.LinkTests.{name_tests, unit_name_tests};
ghost use Rattle.ordered_tests.specs.Checks.{check};
ghost use Rattle.link_model.specs.declared.link_error.LinkError.TheVariants.{Undeclared};
ghost use Rattle.link_model.specs.Program.{defines, declares};
ghost use Rattle.asm_program.specs.Faults.{told};
ghost use Rattle.asm_program.specs.Texts.{texts};

use crate::names::{NameList, Names};
use asm_syntax::instr::Function;
use asm_syntax::name::Name;
use asm_syntax::symbol::Symbol;
use asm_syntax::unit::{Unit, Variable};
use link_model::link_error::LinkError;
use std::alloc::{AllocError, Global};

fn add_symbol<'u>(names: &mut NameList<'u>, symbol: Option<Symbol<'u>>) -> Result<(), AllocError>
    ensures { OnOk result (names.new ≡ names.old ++ names_in symbol.entry) }
{
    match symbol {
        Some(symbol) => names.push(symbol.name()),
        None => Ok(()),
    }
}

#[tactic(auto, using(crate::proofs::Pieces::flat_more))]
fn add_code<'u>(names: &mut NameList<'u>, function: &'u Function) -> Result<(), AllocError>
    ensures { OnOk result (names.new ≡ names.old ++ function_names function.now) }
{
    for instr in function.code.items() {
        add_symbol(names, instr.symbol())?;
    }
    Ok(())
}

#[tactic(auto, using(crate::proofs::Pieces::flat_more))]
fn add_data<'u>(names: &mut NameList<'u>, variable: &'u Variable) -> Result<(), AllocError>
    ensures { OnOk result (names.new ≡ names.old ++ variable_names variable.now) }
{
    for init in variable.init.items() {
        add_symbol(names, init.symbol())?;
    }
    Ok(())
}

/// The names to which instructions refer, and then those to which items of data refer.
#[tactic(auto, using(crate::proofs::Pieces::flat_more))]
pub fn names_used<'u>(alloc: Global, unit: &'u Unit) -> Result<NameList<'u>, AllocError>
    ensures { IfOk result (λ names. names ≡ names_used unit.now) }
{
    let mut names = NameList::new(alloc);
    for function in unit.functions.items() {
        add_code(&mut names, function)?;
    }
    for variable in unit.variables.items() {
        add_data(&mut names, variable)?;
    }
    Ok(names)
}

/// The names of functions and of variables.
#[tactic(auto, using(crate::proofs::Pieces::map_more))]
fn add_definitions<'u>(names: &mut NameList<'u>, unit: &'u Unit) -> Result<(), AllocError>
    ensures { OnOk result (names.new ≡ (names.old ++ map function_name unit.now.functions) ++ map variable_name unit.now.variables) }
{
    for function in unit.functions.items() {
        names.push(&function.name)?;
    }
    for variable in unit.variables.items() {
        names.push(&variable.name)?;
    }
    Ok(())
}

/// The names of externals.
#[tactic(auto, using(crate::proofs::Pieces::map_more))]
fn add_declarations<'u>(names: &mut NameList<'u>, unit: &'u Unit) -> Result<(), AllocError>
    ensures { OnOk result (names.new ≡ names.old ++ map external_name unit.now.externals) }
{
    for external in unit.externals.items() {
        names.push(&external.name)?;
    }
    Ok(())
}

/// The names of a list as a set.
fn set_of<'u>(alloc: Global, list: &NameList<'u>) -> Result<Names<'u>, AllocError>
    ensures { IfOk result (λ set. (v : List ℕ) → list_any (bytes_eq v) set ≡ list_any (bytes_eq v) list.now) }
{
    let mut set = Names::new(alloc);
    for name in list.items() {
        set.add(name.bytes())?;
    }
    Ok(set)
}

/// The names of all that a unit defines.
pub fn defined_names<'u>(alloc: Global, unit: &'u Unit) -> Result<Names<'u>, AllocError>
    ensures { IfOk result (λ set. (v : List ℕ) → list_any (bytes_eq v) set ≡ defines unit.now v) }
{
    let mut list = NameList::new(alloc);
    add_definitions(&mut list, unit)?;
    let set = set_of(alloc, &list)?;
    Ok(set)
}

/// The names of all externals that a unit declares.
pub fn declared_names<'u>(alloc: Global, unit: &'u Unit) -> Result<Names<'u>, AllocError>
    ensures { IfOk result (λ set. (v : List ℕ) → list_any (bytes_eq v) set ≡ declares unit.now v) }
{
    let mut list = NameList::new(alloc);
    add_declarations(&mut list, unit)?;
    let set = set_of(alloc, &list)?;
    Ok(set)
}

/// The names of all that a unit defines or declares.
fn known_names<'u>(alloc: Global, unit: &'u Unit) -> Result<Names<'u>, AllocError>
    ensures { IfOk result (λ set. (v : List ℕ) → list_any (bytes_eq v) set ≡ (defines unit.now v || declares unit.now v)) }
{
    let mut list = NameList::new(alloc);
    add_definitions(&mut list, unit)?;
    add_declarations(&mut list, unit)?;
    let set = set_of(alloc, &list)?;
    Ok(set)
}

/// That each name is in a set; else the name is told as one of the unit with number `u`.
fn names_are_among<'u>(
    alloc: Global,
    known: &Names<'u>,
    u: u32,
    names: &[&'u Name],
) -> Result<(), LinkError>
    ensures { Answers told result (all_pass (map (λ n. check (list_any (bytes_eq n) known.now) (Undeclared u n)) (texts names.now))) }
{
    for name in names {
        if !known.contains(name.bytes()) {
            return match name.copy(alloc) {
                Ok(copy) => Err(LinkError::Undeclared(u, copy)),
                Err(_) => Err(LinkError::Memory),
            };
        }
    }
    Ok(())
}

fn unit_names_are_known<'u>(alloc: Global, u: u32, unit: &'u Unit) -> Result<(), LinkError>
    ensures { Answers told result (all_pass (unit_name_tests (u, unit.now))) }
{
    let known = match known_names(alloc, unit) {
        Ok(known) => known,
        Err(_) => return Err(LinkError::Memory),
    };
    let used = match names_used(alloc, unit) {
        Ok(used) => used,
        Err(_) => return Err(LinkError::Memory),
    };
    names_are_among(alloc, &known, u, used.items())
}

/// That each unit defines or declares the names to which it refers.
pub fn names_are_known<'u>(alloc: Global, units: &'u [Unit]) -> Result<(), LinkError>
    requires { length units.now ≤ MOST_UNITS }
    ensures { Answers told result (all_pass (name_tests units.now)) }
{
    for (u, unit) in units.iter().enumerate() {
        match unit_names_are_known(alloc, u as u32, unit) {
            Ok(()) => {}
            Err(e) => return Err(e),
        }
    }
    Ok(())
}
