//! The declarations that are keys: all definitions, and the externals that no unit defines and some unit refers to.

ghost use Rattle.std.specs.Prelude.{◌≡◌, ◌≤◌, ◌++◌, ◌&&◌, ◌||◌, not, List, ℕ, length, map, filter, OnOk, IfOk};
ghost use Rattle.std.specs.List.{list_any};
ghost use Rattle.std.specs.Str.{bytes_eq};
ghost use Rattle.limits.specs.declared.TheConstants.{MOST_UNITS};
ghost use Rattle.link_model.specs.Program.{declarations, defines, declares, names_used, is_global_definition, is_key, is_referred, name_of};
ghost use Rattle.asm_program.specs.Seen.{declaration_seen};
ghost use Rattle.asm_program.specs.Standing.{is_key_by, stands_by, uses_external};
ghost use Rattle.asm_program.specs.Texts.{texts};

use crate::declared::{Declared, Item, declarations};
use crate::names::Names;
use crate::uses::{declared_names, defined_names, names_used};
use asm_syntax::name::Name;
use asm_syntax::unit::Unit;
use std::alloc::{AllocError, Global};

/// The names of all global definitions.
fn global_names<'u>(alloc: Global, all: &[Declared<'u>]) -> Result<Names<'u>, AllocError>
    ensures { IfOk result
        (λ set. (v : List ℕ) → list_any (bytes_eq v) set ≡ list_any (λ d. is_global_definition d && bytes_eq (name_of d) v)
        (map declaration_seen all.now)) }
{
    let mut set = Names::new(alloc);
    for d in all {
        if d.is_global_definition() {
            set.add(d.name().bytes())?;
        }
    }
    Ok(set)
}

/// Adds those of a list of names that a unit declares and does not define.
fn add_externals<'u>(
    referred: &mut Names<'u>,
    declared: &Names<'u>,
    defined: &Names<'u>,
    names: &[&'u Name],
) -> Result<(), AllocError>
    ensures { OnOk result
        ((v : List ℕ) → list_any (bytes_eq v) referred.new
        ≡ (list_any (bytes_eq v) referred.old ||
        (list_any (λ m. bytes_eq m v) (texts names.now) && list_any (bytes_eq v) declared.now
        && not (list_any (bytes_eq v) defined.now)))) }
{
    for name in names {
        let name = name.bytes();
        if declared.contains(name) && !defined.contains(name) {
            referred.add(name)?;
        }
    }
    Ok(())
}

/// Adds the externals to which a unit refers.
fn add_unit<'u>(alloc: Global, referred: &mut Names<'u>, unit: &'u Unit) -> Result<(), AllocError>
    ensures { OnOk result
        ((v : List ℕ) → list_any (bytes_eq v) referred.new ≡ (list_any (bytes_eq v) referred.old || uses_external v unit.now)) }
{
    let declared = declared_names(alloc, unit)?;
    let defined = defined_names(alloc, unit)?;
    let used = names_used(alloc, unit)?;
    add_externals(referred, &declared, &defined, used.items())?;
    Ok(())
}

/// The externals to which some unit refers.
fn referred_names<'u>(alloc: Global, units: &'u [Unit]) -> Result<Names<'u>, AllocError>
    ensures { IfOk result (λ set. (v : List ℕ) → list_any (bytes_eq v) set ≡ is_referred units.now v) }
{
    let mut referred = Names::new(alloc);
    for unit in units {
        add_unit(alloc, &mut referred, unit)?;
    }
    Ok(referred)
}

/// Whether a declaration is a key, by the names of global definitions and of externals that are referred to.
fn is_key<'u>(d: &Declared<'u>, defined: &Names<'u>, referred: &Names<'u>) -> bool
    ensures { result ≡ is_key_by defined.now referred.now (declaration_seen d.now).item }
{
    match d.item {
        Item::External(x) => {
            let name = x.name.bytes();
            !defined.contains(name) && referred.contains(name)
        }
        _ => true,
    }
}

fn keys_among<'u>(
    alloc: Global,
    all: &[Declared<'u>],
    defined: &Names<'u>,
    referred: &Names<'u>,
) -> Result<Vec<Declared<'u>>, AllocError>
    ensures { IfOk result
        (λ list. map declaration_seen list.items ≡ filter (stands_by defined.now referred.now) (map declaration_seen all.now)) }
{
    let mut list = Vec::new(alloc);
    for d in all {
        if is_key(d, defined, referred) {
            list.push(*d)?;
        }
    }
    Ok(list)
}

/// Of all declarations of units those that are keys.
pub fn standing<'u>(
    alloc: Global,
    units: &'u [Unit],
    all: &[Declared<'u>],
) -> Result<Vec<Declared<'u>>, AllocError>
    requires { map declaration_seen all.now ≡ declarations units.now }
    ensures { IfOk result (λ list. map declaration_seen list.items ≡ filter (λ d. is_key units.now d.item) (declarations units.now)) }
{
    let defined = global_names(alloc, all)?;
    let referred = referred_names(alloc, units)?;
    let list = keys_among(alloc, all, &defined, &referred)?;
    Ok(list)
}
