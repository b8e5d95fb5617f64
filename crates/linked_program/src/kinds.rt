//! The keys by their kinds.

ghost use Rattle.std.specs.Prelude.{◌≡◌, ◌<◌, ◌^◌, ℕ, length, map, filter, slice_get, IfOk};
ghost use Rattle.std.specs.List.{flat_map, enumerate_from};
ghost use Rattle.link_model.specs.Program.{Declaration, is_external};
ghost use Rattle.link_model.specs.Numbers.{is_function, is_variable, item_functions, item_variables, item_externals};
ghost use Rattle.asm_program.specs.Seen.{declaration_seen};
ghost use Rattle.linked_program.specs.Kinds.{function_of, variable_of, external_of, function_key, variable_key, external_key, key_numbers};
ghost use Rattle.linked_program.specs.Kinds.{kind_in};

use asm_program::declared::{Declared, Item};
use asm_syntax::instr::Function;
use asm_syntax::unit::{External, Variable};
use link_model::key::KeyKind;
use std::alloc::{AllocError, Global};

/// A function, and the number of its key.
#[derive(Clone, Copy)]
pub struct FunctionKey<'u> {
    pub key: u32,
    pub function: &'u Function,
}

/// A variable, and the number of its key.
#[derive(Clone, Copy)]
pub struct VariableKey<'u> {
    pub key: u32,
    pub variable: &'u Variable,
}

/// An external, and the number of its key.
#[derive(Clone, Copy)]
pub struct ExternalKey<'u> {
    pub key: u32,
    pub external: &'u External,
}

/// The functions among the keys.
pub fn function_keys<'u>(
    alloc: Global,
    keys: &[Declared<'u>],
) -> Result<Vec<FunctionKey<'u>>, AllocError>
    requires { length keys.now < 2 ^ 32 }
    ensures items { IfOk result
        (λ list. map function_of list.items ≡ flat_map (λ (d : Declaration). item_functions d.item) (map declaration_seen keys.now)) }
    ensures numbers { IfOk result (λ list. map function_key list.items ≡ key_numbers is_function (map declaration_seen keys.now)) }
{
    let mut list = Vec::new(alloc);
    for (k, d) in keys.iter().enumerate() {
        if let Item::Function(function) = d.item {
            list.push(FunctionKey {
                key: k as u32,
                function,
            })?;
        }
    }
    Ok(list)
}

/// The variables among the keys.
pub fn variable_keys<'u>(
    alloc: Global,
    keys: &[Declared<'u>],
) -> Result<Vec<VariableKey<'u>>, AllocError>
    requires { length keys.now < 2 ^ 32 }
    ensures items { IfOk result
        (λ list. map variable_of list.items ≡ flat_map (λ (d : Declaration). item_variables d.item) (map declaration_seen keys.now)) }
    ensures numbers { IfOk result (λ list. map variable_key list.items ≡ key_numbers is_variable (map declaration_seen keys.now)) }
{
    let mut list = Vec::new(alloc);
    for (k, d) in keys.iter().enumerate() {
        if let Item::Variable(variable) = d.item {
            list.push(VariableKey {
                key: k as u32,
                variable,
            })?;
        }
    }
    Ok(list)
}

/// The externals among the keys.
pub fn external_keys<'u>(
    alloc: Global,
    keys: &[Declared<'u>],
) -> Result<Vec<ExternalKey<'u>>, AllocError>
    requires { length keys.now < 2 ^ 32 }
    ensures items { IfOk result
        (λ list. map external_of list.items ≡ flat_map (λ (d : Declaration). item_externals d.item) (map declaration_seen keys.now)) }
    ensures numbers { IfOk result (λ list. map external_key list.items ≡ key_numbers is_external (map declaration_seen keys.now)) }
{
    let mut list = Vec::new(alloc);
    for (k, d) in keys.iter().enumerate() {
        if let Item::External(external) = d.item {
            list.push(ExternalKey {
                key: k as u32,
                external,
            })?;
        }
    }
    Ok(list)
}

/// The kind of each key, with its number among those of the kind.
pub fn kinds_of(alloc: Global, keys: &[Declared<'_>]) -> Result<Vec<KeyKind>, AllocError>
    requires { length keys.now < 2 ^ 32 }
    ensures { IfOk result (λ list. (k : ℕ) → slice_get list.items k ≡ kind_in (map declaration_seen keys.now) k) }
{
    let mut list = Vec::new(alloc);
    let mut functions = 0;
    let mut variables = 0;
    let mut externals = 0;
    for d in keys {
        match d.item {
            Item::Function(_) => {
                list.push(KeyKind::Function(functions))?;
                functions += 1;
            }
            Item::Variable(_) => {
                list.push(KeyKind::Variable(variables))?;
                variables += 1;
            }
            Item::External(_) => {
                list.push(KeyKind::External(externals))?;
                externals += 1;
            }
        }
    }
    Ok(list)
}
