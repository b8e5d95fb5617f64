//! The first declaration of each name.

ghost use Rattle.std.specs.Prelude.{◌≡◌, List, ℕ, [], cond, OnOk, Some, None, option_map};
ghost use Rattle.std.specs.Map.{lookup};
ghost use Rattle.std.specs.Option.{option_or};
ghost use Rattle.std.specs.Str.{bytes_eq};
ghost use Rattle.link_model.specs.Program.{name_of};
ghost use Rattle.asm_program.specs.Seen.{declaration_seen};

use crate::codes::CodedName;
use crate::declared::Declared;
use std::alloc::{AllocError, Global};
use std::collections::BTreeMap;
use std::marker::Model;

/// Seen as the declarations by their names, in the order of the names' codes.
#[derive(Drop)]
pub struct Firsts<'u> {
    kept: BTreeMap<CodedName<'u>, Declared<'u>>,
}

impl<'u> Model for Firsts<'u> {
    ghost use Rattle.std.specs.Prelude.{List, ℕ};
    ghost use Rattle.link_model.specs.Program.{Declaration};
    ghost use Rattle.asm_program.specs.Seen.{named};

    ghost Value = { List (List ℕ × Declaration) };

    ghost view = { λ firsts. named firsts.kept.entries };
}

impl<'u> Firsts<'u> {
    pub fn new(alloc: Global) -> Firsts<'u>
        ensures { result ≡ [] }
    {
        Firsts {
            kept: BTreeMap::new(alloc),
        }
    }

    pub fn get(&self, name: &'u [u8]) -> Option<Declared<'u>>
        ensures { option_map declaration_seen result ≡ lookup (bytes_eq name.now) self.now }
    {
        self.kept.get(&CodedName::new(name)).copied()
    }

    /// Adds a declaration whose name is not there.
    pub fn add(&mut self, d: &Declared<'u>) -> Result<(), AllocError>
        ensures { OnOk result
            ((v : List ℕ) → lookup (bytes_eq v) self.new ≡ option_or (lookup (bytes_eq v) self.old)
            (cond (bytes_eq v (name_of (declaration_seen d.now))) (Some (declaration_seen d.now)) None)) }
    {
        let name = d.name().bytes();
        let coded = CodedName::new(name);
        if !self.kept.contains_key(&coded) {
            self.kept.insert(coded, *d)?;
        }
        Ok(())
    }
}
