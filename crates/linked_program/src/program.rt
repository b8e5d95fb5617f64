//! Linked programs.

ghost use Rattle.std.specs.Prelude.{◌≡◌, ◌≤◌, ◌<◌, ◌+◌, ◌*◌, true, length, map, filter, slice_get, option_map, IfOk, Some};
ghost use Rattle.std.specs.List.{list_all};
ghost use Rattle.limits.specs.declared.TheConstants.{MOST_UNITS, MOST_FUNCTIONS, MOST_VARIABLES, MOST_EXTERNALS};
ghost use Rattle.ordered_tests.specs.Answers.{Answers, AnswersAs};
ghost use Rattle.ordered_tests.specs.Steps.{all_pass};
ghost use Rattle.asm_shapes.specs.Units.{unit_fits};
ghost use Rattle.link_model.specs.Program.{Declaration, declarations, keys, is_key, key_alignment, resolve};
ghost use Rattle.link_model.specs.Numbers.{functions, variables, externals, kind_of, key_of, unit_name, entry_key};
ghost use Rattle.link_model.specs.LinkTests.{link_tests, IsLinked};
ghost use Rattle.asm_program.specs.Faults.{told};
ghost use Rattle.asm_program.specs.Seen.{declaration_seen};
ghost use Rattle.linked_program.specs.Alignments.{variable_alignment};
ghost use Rattle.linked_program.specs.Kinds.{IsNumber};
ghost use Rattle.linked_program.specs.Linked.{linked, all_name_tests, resolve_global, AreKeys, Fits};

use crate::tables::{Tables, entry_of, tables_of};
use asm_program::declared::{Declared, declarations};
use asm_program::entry::entry_is_function;
use asm_program::keys::{Keys, keys_of};
use asm_program::numbers::NumberTable;
use asm_program::repeats::{definitions_join, signatures_agree};
use asm_program::sizes::sizes_fit;
use asm_program::standing::standing;
use asm_program::units::units_are_new;
use asm_program::uses::names_are_known;
use asm_syntax::instr::Function;
use asm_syntax::name::Name;
use asm_syntax::unit::{External, Unit, Variable};
use link_laws::laws::linked_gives_facts;
use link_model::key::KeyKind;
use link_model::link_error::LinkError;
use std::alloc::{AllocError, Global};
use std::marker::Model;

/// Units that link, with an entry. It borrows the units. Keys are numbered from 0 in their order, and so are functions, variables
/// and externals among themselves.
#[derive(Drop)]
pub struct Program<'u> {
    units: &'u [Unit],
    entry: Name,
    entry_key: u32,
    list: Vec<Declared<'u>>,
    numbers: NumberTable<'u>,
    tables: Tables<'u>,
}

impl<'u> Model for Program<'u> {
    ghost use Rattle.link_model.specs.Program.{Program as Linked};

    ghost Value = { Linked };

    ghost use Rattle.linked_program.specs.Program.{program_of, IsProgram};

    ghost view = { program_of };

    ghost invariant = { IsProgram };
}

/// That names of units differ, definitions join, names are known and signatures agree.
fn names_link<'u>(
    alloc: Global,
    units: &'u [Unit],
    all: &[Declared<'u>],
    standing: &[Declared<'u>],
) -> Result<(), LinkError>
    requires few { length units.now ≤ MOST_UNITS }
    requires all { map declaration_seen all.now ≡ declarations units.now }
    requires standing { map declaration_seen standing.now ≡ filter (λ d. is_key units.now d.item) (declarations units.now) }
    ensures { Answers told result (all_pass (all_name_tests units.now)) }
{
    match units_are_new(alloc, units) {
        Ok(()) => {}
        Err(e) => return Err(e),
    }
    match definitions_join(alloc, all) {
        Ok(()) => {}
        Err(e) => return Err(e),
    }
    match names_are_known(alloc, units) {
        Ok(()) => {}
        Err(e) => return Err(e),
    }
    signatures_agree(alloc, standing)
}

/// The keys of units that pass all tests of linking.
fn linked_keys<'u>(
    alloc: Global,
    units: &'u [Unit],
    entry: &Name,
    all: &[Declared<'u>],
) -> Result<Keys<'u>, LinkError>
    requires few { length units.now ≤ MOST_UNITS }
    requires fit { list_all unit_fits units.now ≡ true }
    requires all { map declaration_seen all.now ≡ declarations units.now }
    ensures answer { AnswersAs told (λ found. tt) result (all_pass (link_tests units.now entry.now)) }
    ensures found { IfOk result (AreKeys units.now) }
{
    let standing = match standing(alloc, units, all) {
        Ok(standing) => standing,
        Err(_) => return Err(LinkError::Memory),
    };
    match names_link(alloc, units, all, &standing) {
        Ok(()) => {}
        Err(e) => return Err(e),
    }
    match entry_is_function(units, entry) {
        Ok(()) => {}
        Err(e) => return Err(e),
    }
    let found = match keys_of(alloc, &standing) {
        Ok(found) => found,
        Err(_) => return Err(LinkError::Memory),
    };
    match sizes_fit(alloc, &found.list) {
        Ok(()) => Ok(found),
        Err(e) => Err(e),
    }
}

impl<'u> Program<'u> {
    /// The program that passed all tests of linking.
    fn of(
        alloc: Global,
        units: &'u [Unit],
        entry: &Name,
        all: &[Declared<'u>],
        found: Keys<'u>,
    ) -> Result<Program<'u>, AllocError>
        requires few { length units.now ≤ MOST_UNITS }
        requires all { map declaration_seen all.now ≡ declarations units.now }
        requires found { AreKeys units.now found }
        requires linked { IsLinked (record { units = units.now; entry = entry.now }) }
        ensures { IfOk result (λ p. p ≡ record { units = units.now; entry = entry.now }) }
    {
        linked_gives_facts();
        let Keys { list, numbers } = found;
        let entry_key = match entry_of(&list, entry) {
            Some(k) => k,
            None => unreachable!(),
        };
        let tables = tables_of(alloc, all, &list)?;
        let numbers = numbers.table(alloc)?;
        let entry = entry.copy(alloc)?;
        Ok(Program {
            units,
            entry,
            entry_key,
            list,
            numbers,
            tables,
        })
    }

    /// The program that units make. The first fault decides: of units, definitions, names, signatures, the entry and sizes,
    /// and of one kind that of the first place.
    pub fn link(alloc: Global, units: &'u [Unit], entry: &Name) -> Result<Program<'u>, LinkError>
        requires few { length units.now ≤ MOST_UNITS }
        requires fit { list_all unit_fits units.now ≡ true }
        ensures answer { Answers told result (linked units.now entry.now) }
        ensures linked { IfOk result IsLinked }
    {
        let all = match declarations(alloc, units) {
            Ok(all) => all,
            Err(_) => return Err(LinkError::Memory),
        };
        let found = match linked_keys(alloc, units, entry, &all) {
            Ok(found) => found,
            Err(e) => return Err(e),
        };
        match Program::of(alloc, units, entry, &all, found) {
            Ok(program) => Ok(program),
            Err(_) => Err(LinkError::Memory),
        }
    }

    pub fn units(&self) -> u32
        ensures count { result ≡ length self.now.units }
        ensures few { result ≤ MOST_UNITS }
        ensures linked { IsLinked self.now }
    {
        self.units.len() as u32
    }

    pub fn keys(&self) -> u32
        ensures count { result ≡ length (keys self.now.units) }
        ensures few { result ≤ MOST_UNITS * (MOST_FUNCTIONS + MOST_VARIABLES + MOST_EXTERNALS) }
    {
        self.list.len() as u32
    }

    pub fn functions(&self) -> u32
        ensures { result ≡ length (functions self.now.units) }
    {
        self.tables.functions.len() as u32
    }

    pub fn variables(&self) -> u32
        ensures { result ≡ length (variables self.now.units) }
    {
        self.tables.variables.len() as u32
    }

    pub fn externals(&self) -> u32
        ensures { result ≡ length (externals self.now.units) }
    {
        self.tables.externals.len() as u32
    }

    pub fn kind(&self, key: u32) -> KeyKind
        requires { key < length (keys self.now.units) }
        ensures { kind_of self.now.units key ≡ Some result }
    {
        self.tables.kinds[key as usize]
    }

    /// The key of a kind and a number.
    pub fn key_of(&self, kind: KeyKind) -> u32
        requires { IsNumber self.now.units kind }
        ensures key { key_of self.now.units kind ≡ Some result }
        ensures range { result < length (keys self.now.units) }
    {
        match kind {
            KeyKind::Function(n) => self.tables.functions[n as usize].key,
            KeyKind::Variable(n) => self.tables.variables[n as usize].key,
            KeyKind::External(n) => self.tables.externals[n as usize].key,
        }
    }

    pub fn function(&self, f: u32) -> &'u Function
        requires { f < length (functions self.now.units) }
        ensures { slice_get (functions self.now.units) f ≡ Some result.now }
    {
        self.tables.functions[f as usize].function
    }

    pub fn variable(&self, v: u32) -> &'u Variable
        requires { v < length (variables self.now.units) }
        ensures { slice_get (variables self.now.units) v ≡ Some result.now }
    {
        self.tables.variables[v as usize].variable
    }

    pub fn external(&self, x: u32) -> &'u External
        requires { x < length (externals self.now.units) }
        ensures { slice_get (externals self.now.units) x ≡ Some result.now }
    {
        self.tables.externals[x as usize].external
    }

    /// The first declaration of a key.
    pub fn declaration(&self, key: u32) -> Declared<'u>
        requires { key < length (keys self.now.units) }
        ensures value { slice_get (keys self.now.units) key ≡ Some (declaration_seen result) }
        ensures unit { result.unit < length self.now.units }
        ensures fits { Fits (declaration_seen result).item }
    {
        self.list[key as usize]
    }

    /// The unit of the first declaration of a key.
    pub fn unit_of(&self, key: u32) -> u32
        requires { key < length (keys self.now.units) }
        ensures value { option_map (λ (d : Declaration). d.unit) (slice_get (keys self.now.units) key) ≡ Some result }
        ensures range { result < length self.now.units }
    {
        self.list[key as usize].unit
    }

    pub fn unit_name(&self, unit: u32) -> &'u Name
        requires { unit < length self.now.units }
        ensures { result.now ≡ unit_name self.now.units unit }
    {
        &self.units[unit as usize].name
    }

    pub fn entry_key(&self) -> u32
        ensures { entry_key self.now.units self.now.entry ≡ Some result }
    {
        self.entry_key
    }

    /// In bytes: the greatest alignment of the definitions that are one key.
    pub fn alignment(&self, key: u32) -> u8
        requires { key < length (keys self.now.units) }
        ensures value { option_map (key_alignment self.now.units) (slice_get (keys self.now.units) key) ≡ Some result }
        ensures range { 0 < result }
    {
        self.tables.alignments[key as usize]
    }

    /// The alignment of a variable.
    pub fn align_of(&self, v: u32) -> u8
        requires { v < length (variables self.now.units) }
        ensures { variable_alignment self.now.units v ≡ Some result }
    {
        self.alignment(self.tables.variables[v as usize].key)
    }

    /// What a name that the unit does not define as static means.
    fn global(&self, unit: u32, name: &[u8]) -> Option<u32>
        ensures { result ≡ resolve_global self.now.units unit name.now }
    {
        match self.numbers.get(0, name) {
            Some(k) if !self.list[k as usize].is_external() || self.tables.declares(unit, name) => {
                Some(k)
            }
            _ => None,
        }
    }

    /// The key that a name means in a unit.
    pub fn resolve(&self, unit: u32, name: &Name) -> Option<u32>
        ensures { result ≡ resolve self.now.units unit name.now }
    {
        let bytes = name.bytes();
        match self.numbers.get(u64::from(unit) + 1, bytes) {
            Some(k) => Some(k),
            None => self.global(unit, bytes),
        }
    }
}
