//! Lists and sets of borrowed names.

ghost use Rattle.std.specs.Prelude.{◌≡◌, ◌||◌, ◌++◌, ◌∷◌, List, ℕ, [], OnOk, IfOk};
ghost use Rattle.asm_program.specs.Texts.{texts};
ghost use Rattle.std.specs.List.{list_any};
ghost use Rattle.std.specs.Str.{bytes_eq};

use crate::codes::CodedName;
use asm_syntax::name::Name;
use std::alloc::{AllocError, Global};
use std::collections::BTreeSet;
use std::marker::Model;

/// Seen as its names in the order of their codes.
#[derive(Drop)]
pub struct Names<'u> {
    kept: BTreeSet<CodedName<'u>>,
}

impl<'u> Model for Names<'u> {
    ghost use Rattle.std.specs.Prelude.{List, ℕ};
    ghost use Rattle.asm_program.specs.Coded.{coded_texts};

    ghost Value = { List (List ℕ) };

    ghost view = { λ names. coded_texts names.kept.keys };
}

impl<'u> Names<'u> {
    pub fn new(alloc: Global) -> Names<'u>
        ensures { result ≡ [] }
    {
        Names {
            kept: BTreeSet::new(alloc),
        }
    }

    pub fn contains(&self, name: &'u [u8]) -> bool
        ensures { result ≡ list_any (bytes_eq name.now) self.now }
    {
        self.kept.contains(&CodedName::new(name))
    }

    pub fn add(&mut self, name: &'u [u8]) -> Result<(), AllocError>
        ensures { OnOk result ((v : List ℕ) → list_any (bytes_eq v) self.new ≡ (bytes_eq v name.now || list_any (bytes_eq v) self.old)) }
    {
        self.kept.insert(CodedName::new(name))?;
        Ok(())
    }
}

/// Seen as its names in their order.
#[derive(Drop)]
pub struct NameList<'u> {
    kept: Vec<&'u Name>,
}

impl<'u> Model for NameList<'u> {
    ghost use Rattle.std.specs.Prelude.{List, ℕ};
    ghost use Rattle.asm_program.specs.Texts.{texts};

    ghost Value = { List (List ℕ) };

    ghost view = { λ names. texts names.kept.items };
}

impl<'u> NameList<'u> {
    pub fn new(alloc: Global) -> NameList<'u>
        ensures { result ≡ [] }
    {
        NameList {
            kept: Vec::new(alloc),
        }
    }

    pub fn push(&mut self, name: &'u Name) -> Result<(), AllocError>
        ensures { OnOk result (self.new ≡ self.old ++ name.now ∷ []) }
    {
        self.kept.push(name)?;
        Ok(())
    }

    pub fn items(&self) -> &[&'u Name]
        ensures { texts result.now ≡ self.now }
    {
        &self.kept
    }
}
