//! What the machine reads of a linked program.

ghost use Rattle.std.specs.Prelude.{◌≡◌, ◌≤◌, ◌<◌, ◌+◌, ◌^◌, ◌++◌, ◌∷◌, [], ℕ, true, length, map, IfOk, OnOk, Some, option_copied};
ghost use Rattle.asm_shapes.specs.Units.{external_fits, function_fits};
ghost use Rattle.link_model.specs.Numbers.{is_function, is_variable};
ghost use Rattle.link_model.specs.Program.{is_external, keys};
ghost use Rattle.name_addresses.specs.Keys.{ItemFits, declared, declared_item};
ghost use Rattle.asm_machine.specs.Executables.{item_routines, item_sig, key_kinds, key_meant, key_named, linked, routine_of, routines};
ghost use Rattle.asm_machine.specs.Executables.{sigs};
ghost use Rattle.asm_machine.specs.Parts.{HasKinds, next_kind, one_if};

use asm_step::executable::{Callee, Executable, IndexedRoutine};
use asm_syntax::instr::{Function, Instr};
use asm_syntax::name::Name;
use asm_syntax::unit::External;
use link_model::key::KeyKind;
use name_addresses::keys::{Key, KeyItem, KeyedProgram};
use std::alloc::{AllocError, Global};

// ---- what keys are

/// The kinds of keys in their order, and how many of each kind there are.
#[derive(Drop)]
pub struct KindTable {
    kinds: Vec<KeyKind>,
    functions: u32,
    variables: u32,
    externals: u32,
}

impl KindTable {
    fn new(alloc: Global) -> KindTable
        ensures kinds { result.kinds.items ≡ [] }
        ensures counts { (result.functions ≡ 0) × (result.variables ≡ 0) × (result.externals ≡ 0) }
    {
        KindTable {
            kinds: Vec::new(alloc),
            functions: 0,
            variables: 0,
            externals: 0,
        }
    }

    fn push(&mut self, item: &KeyItem) -> Result<(), AllocError>
        requires functions { self.old.functions + 1 < 2 ^ 32 }
        requires variables { self.old.variables + 1 < 2 ^ 32 }
        requires externals { self.old.externals + 1 < 2 ^ 32 }
        ensures kinds { OnOk result (self.new.kinds.items ≡ self.old.kinds.items ++ next_kind self.old (declared_item item.now) ∷ []) }
        ensures functions { self.new.functions ≡ self.old.functions + one_if (is_function (declared_item item.now)) }
        ensures variables { self.new.variables ≡ self.old.variables + one_if (is_variable (declared_item item.now)) }
        ensures externals { self.new.externals ≡ self.old.externals + one_if (is_external (declared_item item.now)) }
    {
        match item {
            KeyItem::Function(_) => {
                let kind = KeyKind::Function(self.functions);
                self.functions += 1;
                self.kinds.push(kind)?;
            }
            KeyItem::Variable(_) => {
                let kind = KeyKind::Variable(self.variables);
                self.variables += 1;
                self.kinds.push(kind)?;
            }
            KeyItem::External(_) => {
                let kind = KeyKind::External(self.externals);
                self.externals += 1;
                self.kinds.push(kind)?;
            }
        }
        Ok(())
    }
}

fn kind_table<P: KeyedProgram>(alloc: Global, p: &P) -> Result<KindTable, AllocError>
    ensures { IfOk result (λ t. HasKinds (P.program p.now).units (length (keys (P.program p.now).units)) t) }
{
    let mut table = KindTable::new(alloc);
    for k in 0..p.key_count() {
        let key = p.key(k);
        table.push(&key.item)?;
    }
    Ok(table)
}

// ---- code

/// The key that a name means in a unit, 0 where it means none.
pub fn key_meant<P: KeyedProgram>(p: &P, unit: u32, name: &Name) -> u32
    ensures { result ≡ key_meant (P.program p.now).units unit name.now }
{
    match p.resolve(unit, name) {
        Some(key) => key,
        None => 0,
    }
}

fn key_named<P: KeyedProgram>(p: &P, unit: u32, x: &Instr) -> u32
    ensures { result ≡ key_named (P.program p.now).units unit x.now }
{
    match x.symbol() {
        Some(symbol) => key_meant(p, unit, symbol.name()),
        None => 0,
    }
}

fn keys_named<P: KeyedProgram>(
    alloc: Global,
    p: &P,
    unit: u32,
    code: &[Instr],
) -> Result<Vec<u32>, AllocError>
    ensures { IfOk result (λ v. v.items ≡ map (key_named (P.program p.now).units unit) code.now) }
{
    let mut named = Vec::new(alloc);
    for x in code {
        named.push(key_named(p, unit, x))?;
    }
    Ok(named)
}

#[tactic(auto, using(crate::proofs::Fitting::function_shape, crate::proofs::Fitting::function_size))]
fn routine<'u, P: KeyedProgram>(
    alloc: Global,
    p: &P,
    unit: u32,
    f: &'u Function,
) -> Result<IndexedRoutine<'u>, AllocError>
    requires { function_fits f.now ≡ true }
    ensures { IfOk result (λ r. r ≡ routine_of (P.program p.now).units unit f.now) }
{
    let code = f.code.items();
    let named = keys_named(alloc, p, unit, code)?;
    IndexedRoutine::new(alloc, code, named)
}

fn push_routine<'u, P: KeyedProgram>(
    alloc: Global,
    p: &P,
    routines: &mut Vec<IndexedRoutine<'u>>,
    key: &Key<'u>,
) -> Result<(), AllocError>
    requires { ItemFits key.now.item }
    ensures { OnOk result
        (routines.new.items ≡ routines.old.items ++ item_routines (P.program p.now).units key.now.unit (declared_item key.now.item)) }
{
    if let KeyItem::Function(f) = key.item {
        let r = routine(alloc, p, key.unit, f)?;
        routines.push(r)?;
    }
    Ok(())
}

fn routines<'u, P: KeyedProgram>(
    alloc: Global,
    p: &'u P,
) -> Result<Vec<IndexedRoutine<'u>>, AllocError>
    ensures { IfOk result (λ v. v.items ≡ routines (P.program p.now).units) }
{
    let mut all = Vec::new(alloc);
    for k in 0..p.key_count() {
        let key = p.key(k);
        push_routine(alloc, p, &mut all, &key)?;
    }
    Ok(all)
}

// ---- how keys are called

#[tactic(auto, using(crate::proofs::Fitting::external_sig))]
fn callee<'u>(x: &'u External) -> Option<Callee<'u>>
    requires { external_fits x.now ≡ true }
    ensures { result ≡ x.now.sig }
{
    match &x.sig {
        Some(sig) => Some(Callee::new(sig)),
        None => None,
    }
}

fn item_callee<'u>(item: KeyItem<'u>) -> Option<Callee<'u>>
    requires { ItemFits item }
    ensures { result ≡ item_sig (declared_item item.entry) }
{
    match item {
        KeyItem::External(x) => callee(x),
        _ => None,
    }
}

fn callees<'u, P: KeyedProgram>(
    alloc: Global,
    p: &'u P,
) -> Result<Vec<Option<Callee<'u>>>, AllocError>
    ensures { IfOk result (λ v. v.items ≡ sigs (P.program p.now).units) }
{
    let mut all = Vec::new(alloc);
    for k in 0..p.key_count() {
        let key = p.key(k);
        all.push(item_callee(key.item))?;
    }
    Ok(all)
}

// ---- the whole

/// What a machine reads of a linked program, made once, so that no step looks a name up or searches code for a label.
pub fn executable<'u, P: KeyedProgram>(
    alloc: Global,
    p: &'u P,
) -> Result<Executable<'u>, AllocError>
    ensures { IfOk result (λ e. e ≡ linked (P.program p.now)) }
{
    let table = kind_table(alloc, p)?;
    let routines = routines(alloc, p)?;
    let callees = callees(alloc, p)?;
    Ok(Executable::new(routines, table.kinds, callees, table.variables))
}
