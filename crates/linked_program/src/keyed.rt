//! A program as it is read by those who check an image.

ghost use Rattle.std.specs.Prelude.{◌≡◌};
ghost use Rattle.asm_program.specs.Seen.{declaration_seen};
ghost use Rattle.name_addresses.specs.Keys.{declared, ItemFits};
ghost use Rattle.linked_program.specs.Linked.{Fits};

use crate::program::Program;
use asm_program::declared::{Declared, Item};
use asm_syntax::name::Name;
use name_addresses::keys::{Key, KeyItem, KeyedProgram};

fn key_of<'u>(d: Declared<'u>) -> Key<'u>
    ensures declared { declared result ≡ declaration_seen d.entry }
    ensures unit { result.unit ≡ d.entry.unit }
    ensures fits { Fits (declaration_seen d.entry).item → ItemFits result.item }
{
    let item = match d.item {
        Item::Function(f) => KeyItem::Function(f),
        Item::Variable(x) => KeyItem::Variable(x),
        Item::External(x) => KeyItem::External(x),
    };
    Key { unit: d.unit, item }
}

impl<'u> KeyedProgram for Program<'u> {
    ghost program = { λ p. p };

    fn unit_name(&self, unit: u32) -> &Name {
        self.unit_name(unit)
    }

    fn key_count(&self) -> u32 {
        self.keys()
    }

    fn key(&self, k: u32) -> Key<'_> {
        key_of(self.declaration(k))
    }

    fn alignment(&self, k: u32) -> u8 {
        self.alignment(k)
    }

    fn resolve(&self, unit: u32, name: &Name) -> Option<u32> {
        self.resolve(unit, name)
    }
}
