//! What is looked up of the keys of a program.

ghost use Rattle.std.specs.Prelude.{◌≡◌, ◌<◌, ◌^◌, List, ℕ, length, map, is_some, position, IfOk};
ghost use Rattle.std.specs.List.{list_any};
ghost use Rattle.std.specs.Map.{lookup};
ghost use Rattle.link_model.specs.Program.{Declaration};
ghost use Rattle.link_model.specs.Numbers.{is_entry};
ghost use Rattle.asm_program.specs.Scopes.{is_same};
ghost use Rattle.asm_program.specs.Seen.{declaration_seen};
ghost use Rattle.linked_program.specs.Tables.{AreTables, is_external_of};

use crate::alignments::alignments_of;
use crate::kinds::{
    ExternalKey, FunctionKey, VariableKey, external_keys, function_keys, kinds_of, variable_keys,
};
use asm_program::declared::Declared;
use asm_program::numbers::{NumberTable, Numbers};
use asm_syntax::name::Name;
use link_model::key::KeyKind;
use std::alloc::{AllocError, Global};

/// By the number of a key its kind and its alignment, by its number each key of a kind, and the externals of units.
#[derive(Drop)]
pub struct Tables<'u> {
    pub kinds: Vec<KeyKind>,
    pub functions: Vec<FunctionKey<'u>>,
    pub variables: Vec<VariableKey<'u>>,
    pub externals: Vec<ExternalKey<'u>>,
    pub alignments: Vec<u8>,
    pub declared: NumberTable<'u>,
}

impl<'u> Tables<'u> {
    /// Whether a unit declares an external of this name.
    pub fn declares(&self, unit: u32, name: &[u8]) -> bool
        ensures { result ≡ is_some (lookup (is_same (unit, name.now)) self.now.declared) }
    {
        self.declared.get(u64::from(unit), name).is_some()
    }
}

/// The externals that units declare, each with its unit in place of a scope.
fn declared_names<'u>(alloc: Global, all: &[Declared<'u>]) -> Result<NumberTable<'u>, AllocError>
    ensures { IfOk result (λ table. (q : ℕ × List ℕ)
        → is_some (lookup (is_same q) table) ≡ list_any (is_external_of q) (map declaration_seen all.now)) }
{
    let mut names = Numbers::new(alloc);
    for d in all {
        if d.is_external() {
            names.set(u64::from(d.unit), d.name().bytes(), 0)?;
        }
    }
    let table = names.table(alloc)?;
    Ok(table)
}

/// The tables of keys that declarations make.
pub fn tables_of<'u>(
    alloc: Global,
    all: &[Declared<'u>],
    keys: &[Declared<'u>],
) -> Result<Tables<'u>, AllocError>
    requires { length keys.now < 2 ^ 32 }
    ensures { IfOk result (AreTables (map declaration_seen all.now) (map declaration_seen keys.now)) }
{
    let kinds = kinds_of(alloc, keys)?;
    let functions = function_keys(alloc, keys)?;
    let variables = variable_keys(alloc, keys)?;
    let externals = external_keys(alloc, keys)?;
    let alignments = alignments_of(alloc, all, keys)?;
    let declared = declared_names(alloc, all)?;
    Ok(Tables {
        kinds,
        functions,
        variables,
        externals,
        alignments,
        declared,
    })
}

/// The number of the first key that is the global function of a name.
pub fn entry_of(keys: &[Declared<'_>], entry: &Name) -> Option<u32>
    requires { length keys.now < 2 ^ 32 }
    ensures { result ≡ position (λ (d : Declaration). is_entry entry.now d.item) (map declaration_seen keys.now) }
{
    for (k, d) in keys.iter().enumerate() {
        if d.is_entry(entry) {
            return Some(k as u32);
        }
    }
    None
}
