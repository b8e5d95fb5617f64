//! The keys of a linked program and what names mean in its units.

ghost use Rattle.std.specs.Prelude.{◌≡◌, ◌<◌, ◌≤◌, ◌+◌, ◌*◌, length, slice_get, Some, option_map};
ghost use Rattle.limits.specs.declared.TheConstants.{MOST_EXTERNALS, MOST_FUNCTIONS, MOST_UNITS, MOST_VARIABLES};
ghost use Rattle.link_model.specs.Numbers.{unit_name};
ghost use Rattle.link_model.specs.Program.{Program, key_alignment, keys, resolve, name_of, is_static};
ghost use Rattle.name_addresses.specs.Keys.{declared, ItemFits};

use asm_syntax::instr::Function;
use asm_syntax::name::Name;
use asm_syntax::unit::{External, Variable};

/// What a key stands for.
#[derive(Clone, Copy)]
pub enum KeyItem<'u> {
    Function(&'u Function),
    Variable(&'u Variable),
    External(&'u External),
}

/// A key: the first declaration of it, and the number of its unit.
#[derive(Clone, Copy)]
pub struct Key<'u> {
    pub unit: u32,
    pub item: KeyItem<'u>,
}

impl<'u> Key<'u> {
    pub fn name(&self) -> &'u Name
        ensures { result.now ≡ name_of (declared self.now) }
    {
        match self.item {
            KeyItem::Function(f) => &f.name,
            KeyItem::Variable(x) => &x.name,
            KeyItem::External(x) => &x.name,
        }
    }

    pub fn is_static(&self) -> bool
        ensures { result ≡ is_static (declared self.now) }
    {
        match self.item {
            KeyItem::Function(f) => f.is_static,
            KeyItem::Variable(x) => x.is_static,
            KeyItem::External(_) => false,
        }
    }
}

/// A linked program, as far as its units, its keys and its names go.
pub trait KeyedProgram {
    ghost program: { Self → Program };

    fn unit_name(&self, unit: u32) -> &Name
        requires { unit < length (program self.now).units }
        ensures { result.now ≡ unit_name (program self.now).units unit };

    /// How many keys there are.
    fn key_count(&self) -> u32
        ensures count { result ≡ length (keys (program self.now).units) }
        ensures few { result ≤ MOST_UNITS * (MOST_FUNCTIONS + MOST_VARIABLES + MOST_EXTERNALS) };

    fn key(&self, k: u32) -> Key<'_>
        requires { k < length (keys (program self.now).units) }
        ensures declared { slice_get (keys (program self.now).units) k ≡ Some (declared result) }
        ensures unit { result.unit < length (program self.now).units }
        ensures fits { ItemFits result.item };

    /// In bytes: the greatest alignment of the definitions that are one key.
    fn alignment(&self, k: u32) -> u8
        requires { k < length (keys (program self.now).units) }
        ensures value { option_map (key_alignment (program self.now).units) (slice_get (keys (program self.now).units) k) ≡ Some result }
        ensures range { 0 < result };

    /// The key that a name means in a unit.
    fn resolve(&self, unit: u32, name: &Name) -> Option<u32>
        ensures { result ≡ resolve (program self.now).units unit name.now };
}
