//! The definitions and declarations of all units.

ghost use Rattle.std.specs.Prelude.{◌≡◌, ◌≤◌, ◌++◌, ◌<◌, ◌^◌, ◌&&◌, not, length, map, filter, OnOk, IfOk};
ghost use Rattle.limits.specs.declared.TheConstants.{MOST_UNITS};
ghost use Rattle.asm_syntax.specs.declared.unit.Unit.{Unit};
ghost use Rattle.asm_syntax.specs.Sizes.{variable_size};
ghost use Rattle.link_model.specs.Program.{unit_declarations, declarations, is_global_definition, joins};
ghost use Rattle.asm_program.specs.Seen.{item_seen, declaration_seen};

use asm_syntax::instr::Function;
use asm_syntax::name::Name;
use asm_syntax::unit::{External, Init, Unit, Variable};
use std::alloc::{AllocError, Global};

/// What a name is given to.
#[derive(Clone, Copy)]
pub enum Item<'u> {
    Function(&'u Function),
    Variable(&'u Variable),
    External(&'u External),
}

/// A definition, or an external that is declared, with the number of its unit.
#[derive(Clone, Copy)]
pub struct Declared<'u> {
    pub unit: u32,
    pub item: Item<'u>,
}

impl<'u> Declared<'u> {
    ghost use Rattle.std.specs.Prelude.{◌≡◌, ◌<◌, ◌^◌};
    ghost use Rattle.link_model.specs.Program.{name_of, is_static, is_external, is_global_definition, item_alignment};
    ghost use Rattle.link_model.specs.Numbers.{is_entry};
    ghost use Rattle.link_model.specs.LinkTests.{item_size};
    ghost use Rattle.asm_program.specs.Seen.{declaration_seen};
    ghost use Rattle.asm_program.specs.Scopes.{scope_of};

    pub fn name(&self) -> &'u Name
        ensures { result.now ≡ name_of (declaration_seen self.now) }
    {
        match self.item {
            Item::Function(f) => &f.name,
            Item::Variable(x) => &x.name,
            Item::External(x) => &x.name,
        }
    }

    pub fn is_global_definition(&self) -> bool
        ensures { result ≡ is_global_definition (declaration_seen self.now) }
    {
        match self.item {
            Item::Function(f) => !f.is_static,
            Item::Variable(x) => !x.is_static,
            Item::External(_) => false,
        }
    }

    pub fn is_external(&self) -> bool
        ensures { result ≡ is_external (declaration_seen self.now).item }
    {
        matches!(self.item, Item::External(_))
    }

    pub fn is_static(&self) -> bool
        ensures { result ≡ is_static (declaration_seen self.now) }
    {
        match self.item {
            Item::Function(f) => f.is_static,
            Item::Variable(x) => x.is_static,
            Item::External(_) => false,
        }
    }

    /// 0 for a global name, else one more than the number of the unit.
    pub fn scope(&self) -> u64
        ensures { result ≡ scope_of (declaration_seen self.now) }
    {
        if self.is_static() {
            u64::from(self.unit) + 1
        } else {
            0
        }
    }

    pub fn alignment(&self) -> u8
        ensures { result ≡ item_alignment (declaration_seen self.now).item }
    {
        match self.item {
            Item::Variable(x) => x.align,
            _ => 1,
        }
    }

    /// In bytes.
    pub fn size(&self) -> u128
        ensures value { result ≡ item_size (declaration_seen self.now).item }
        ensures range { result < 2 ^ 127 }
    {
        match self.item {
            Item::Variable(x) => size_of(x.init.items()),
            _ => 0,
        }
    }

    /// Whether it is the global function of this name.
    pub fn is_entry(&self, entry: &Name) -> bool
        ensures { result ≡ is_entry entry.now (declaration_seen self.now).item }
    {
        match self.item {
            Item::Function(f) => !f.is_static && f.name == *entry,
            _ => false,
        }
    }
}

/// The bytes of items, which may be more than a variable may have.
pub fn size_of(items: &[Init]) -> u128
    ensures value { result ≡ variable_size items.now }
    ensures range { result < 2 ^ 127 }
{
    let mut total: u128 = 0;
    for init in items {
        total += u128::from(init.size());
    }
    total
}

fn add_unit<'u>(list: &mut Vec<Declared<'u>>, u: u32, unit: &'u Unit) -> Result<(), AllocError>
    ensures { OnOk result (map declaration_seen list.new.items ≡ map declaration_seen list.old.items ++ unit_declarations u unit.now) }
{
    for function in unit.functions.items() {
        list.push(Declared {
            unit: u,
            item: Item::Function(function),
        })?;
    }
    for variable in unit.variables.items() {
        list.push(Declared {
            unit: u,
            item: Item::Variable(variable),
        })?;
    }
    for external in unit.externals.items() {
        list.push(Declared {
            unit: u,
            item: Item::External(external),
        })?;
    }
    Ok(())
}

/// The functions, the variables and the externals of each unit, in the order of the units.
#[tactic(auto, using(crate::proofs::Declarations::more_units), unfolding(link_model::specs::Program::declarations))]
pub fn declarations<'u>(alloc: Global, units: &'u [Unit]) -> Result<Vec<Declared<'u>>, AllocError>
    requires { length units.now ≤ MOST_UNITS }
    ensures { IfOk result (λ list. map declaration_seen list.items ≡ declarations units.now) }
{
    let mut list = Vec::new(alloc);
    for (u, unit) in units.iter().enumerate() {
        add_unit(&mut list, u as u32, unit)?;
    }
    Ok(list)
}
