//! The tests of declarations that have to be alike where they have one name.

ghost use Rattle.std.specs.Prelude.{◌≡◌, List, ℕ, map, filter, IfOk, MatchOption, Option, ⊤, true};
ghost use Rattle.std.specs.List.{list_all};
ghost use Rattle.std.specs.Map.{lookup};
ghost use Rattle.std.specs.Option.{option_map_or, option_eq};
ghost use Rattle.std.specs.Str.{bytes_eq};
ghost use Rattle.ordered_tests.specs.Answers.{Answers};
ghost use Rattle.ordered_tests.specs.Steps.{all_pass};
ghost use Rattle.asm_syntax.specs.Sigs.{same_sig};
ghost use Rattle.link_model.specs.declared.link_error.LinkError.TheVariants.{DefinedTwice, SigDiffers};
ghost use Rattle.link_model.specs.Program.{Declaration, is_space, is_external, is_global_definition, joins, name_of};
ghost use Rattle.link_model.specs.LinkTests.{repeat_tests, same_external};
ghost use Rattle.asm_program.specs.Faults.{told};
ghost use Rattle.asm_program.specs.Seen.{item_seen, declaration_seen};
ghost use Rattle.asm_program.specs.Repeats.{alike_by, fault_by};

use crate::declared::{Declared, Item, size_of};
use crate::firsts::Firsts;
use asm_syntax::unit::{External, Init};
use link_model::link_error::LinkError;
use std::alloc::{AllocError, Global};

/// What two declarations of one name have to be: common variables of one size, or externals with one signature.
#[derive(Clone, Copy)]
pub enum Rule {
    Definitions,
    Externals,
}

fn is_space(init: &Init) -> bool
    ensures { result ≡ is_space init.now }
{
    matches!(init, Init::Space(_))
}

fn are_spaces(items: &[Init]) -> bool
    ensures { result ≡ list_all is_space items.now }
{
    items.iter().all(|init| is_space(init))
}

fn joins(a: Item<'_>, b: Item<'_>) -> bool
    ensures { result ≡ joins (item_seen a.entry) (item_seen b.entry) }
{
    match (a, b) {
        (Item::Variable(x), Item::Variable(y)) => {
            are_spaces(x.init.items())
                && are_spaces(y.init.items())
                && size_of(x.init.items()) == size_of(y.init.items())
                && x.writable == y.writable
        }
        _ => false,
    }
}

fn has_same_sig(a: &External, b: &External) -> bool
    ensures { result ≡ option_eq same_sig a.now.sig b.now.sig }
{
    match (&a.sig, &b.sig) {
        (Some(x), Some(y)) => x.is_same_as(y),
        (None, None) => true,
        _ => false,
    }
}

fn are_alike(rule: Rule, a: Item<'_>, b: Item<'_>) -> bool
    ensures { result ≡ alike_by rule (item_seen a.entry) (item_seen b.entry) }
{
    match rule {
        Rule::Definitions => joins(a, b),
        Rule::Externals => match (a, b) {
            (Item::External(x), Item::External(y)) => has_same_sig(x, y),
            _ => false,
        },
    }
}

/// Whether a declaration is like the first of its name.
fn is_like_first<'u>(rule: Rule, firsts: &Firsts<'u>, d: &Declared<'u>) -> bool
    ensures { result ≡ option_map_or (λ (f : Declaration). alike_by rule f.item (declaration_seen d.now).item)
        (lookup (bytes_eq (name_of (declaration_seen d.now))) firsts.now) true }
{
    match firsts.get(d.name().bytes()) {
        Some(first) => are_alike(rule, first.item, d.item),
        None => true,
    }
}

fn fault_of(alloc: Global, rule: Rule, d: &Declared<'_>) -> LinkError
    ensures { MatchOption (told result) ⊤ (λ fault. fault ≡ fault_by rule (declaration_seen d.now)) }
{
    let name = match d.name().copy(alloc) {
        Ok(name) => name,
        Err(_) => return LinkError::Memory,
    };
    match rule {
        Rule::Definitions => LinkError::DefinedTwice(d.unit, name),
        Rule::Externals => LinkError::SigDiffers(d.unit, name),
    }
}

fn are_like_firsts<'u>(alloc: Global, rule: Rule, list: &[Declared<'u>]) -> Result<(), LinkError>
    ensures { Answers told result (all_pass (repeat_tests (alike_by rule) (fault_by rule) (map declaration_seen list.now))) }
{
    let mut firsts = Firsts::new(alloc);
    for d in list {
        if !is_like_first(rule, &firsts, d) {
            return Err(fault_of(alloc, rule, d));
        }
        match firsts.add(d) {
            Ok(()) => {}
            Err(_) => return Err(LinkError::Memory),
        }
    }
    Ok(())
}

fn global_among<'u>(alloc: Global, all: &[Declared<'u>]) -> Result<Vec<Declared<'u>>, AllocError>
    ensures { IfOk result (λ list. map declaration_seen list.items ≡ filter is_global_definition (map declaration_seen all.now)) }
{
    let mut list = Vec::new(alloc);
    for d in all {
        if d.is_global_definition() {
            list.push(*d)?;
        }
    }
    Ok(list)
}

/// That each definition of a global name joins with those of earlier units.
pub fn definitions_join<'u>(alloc: Global, all: &[Declared<'u>]) -> Result<(), LinkError>
    ensures { Answers told result
        (all_pass (repeat_tests joins (λ d. DefinedTwice d.unit (name_of d))
        (filter is_global_definition (map declaration_seen all.now)))) }
{
    let list = match global_among(alloc, all) {
        Ok(list) => list,
        Err(_) => return Err(LinkError::Memory),
    };
    are_like_firsts(alloc, Rule::Definitions, &list)
}

fn externals_among<'u>(alloc: Global, all: &[Declared<'u>]) -> Result<Vec<Declared<'u>>, AllocError>
    ensures { IfOk result (λ list. map declaration_seen list.items ≡ filter (λ d. is_external d.item) (map declaration_seen all.now)) }
{
    let mut list = Vec::new(alloc);
    for d in all {
        if d.is_external() {
            list.push(*d)?;
        }
    }
    Ok(list)
}

/// That each declaration of an external has the signature of those of earlier units.
pub fn signatures_agree<'u>(alloc: Global, standing: &[Declared<'u>]) -> Result<(), LinkError>
    ensures { Answers told result
        (all_pass (repeat_tests same_external (λ d. SigDiffers d.unit (name_of d))
        (filter (λ d. is_external d.item) (map declaration_seen standing.now)))) }
{
    let list = match externals_among(alloc, standing) {
        Ok(list) => list,
        Err(_) => return Err(LinkError::Memory),
    };
    are_like_firsts(alloc, Rule::Externals, &list)
}
