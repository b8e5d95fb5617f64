//! References to symbols.

ghost use Rattle.std.specs.Prelude.{◌≡◌};

use crate::name::Name;
use std::marker::Model;

/// A reference to a symbol, as a constant, a branch or an item of data has it.
#[derive(Debug, Drop)]
pub struct Symbol<'a> {
    name: &'a Name,
    offset: i32,
}

impl<'a> Model for Symbol<'a> {
    ghost use Rattle.asm_syntax.specs.References.{Reference, reference};

    ghost Value = { Reference };

    ghost view = { λ symbol. reference symbol.name.now symbol.offset };
}

impl<'a> Symbol<'a> {
    ghost use Rattle.asm_syntax.specs.References.{reference};

    pub fn new(name: &'a Name, offset: i32) -> Symbol<'a>
        ensures { result ≡ reference name.now offset }
    {
        Symbol { name, offset }
    }

    pub fn name(&self) -> &'a Name
        ensures { result.now ≡ self.now.name }
    {
        self.name
    }

    /// What is added to the symbol's address.
    pub fn offset(&self) -> i32
        ensures { result ≡ self.now.offset }
    {
        self.offset
    }
}
