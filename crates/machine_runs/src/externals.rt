//! The external functions of a program, by their addresses.

ghost use Rattle.std.specs.Prelude.{◌≡◌, ℕ, IfOk, OnOk};
ghost use Rattle.machine_model.specs.FlatRuns.{outside};
ghost use Rattle.machine_runs.specs.Outside.{AddsKey};
ghost use Rattle.link_model.specs.Binding.{key_address};
ghost use Rattle.name_addresses.specs.Keys.{ItemFits, declared};
ghost use Rattle.ppc_machine.specs.Externals.{external_at};

use linked_program::program::Program;
use name_addresses::keys::{Key, KeyItem, KeyedProgram};
use ppc_machine::externals::ExtTable;
use std::alloc::{AllocError, Global};

/// The address of a key, 0 where it has none.
pub fn key_address(addresses: &[u32], key: u32) -> u32
    ensures { result ≡ key_address addresses.now key }
{
    match addresses.get(key as usize) {
        Some(a) => *a,
        None => 0,
    }
}

/// Adds a key that is an external with a signature, where no other is at its address.
fn add_key(table: &mut ExtTable, addresses: &[u32], k: u32, key: &Key) -> Result<(), AllocError>
    requires { ItemFits key.now.item }
    ensures { OnOk result (AddsKey addresses.now (k, declared key.now) table.old table.new) }
{
    let KeyItem::External(x) = key.item else {
        return Ok(());
    };
    let Some(sig) = &x.sig else {
        return Ok(());
    };
    let a = key_address(addresses, k);
    if table.at(a).is_some() {
        return Ok(());
    }
    table.add(a, k, sig)
}

/// The external functions with a signature. Where two have one address, the first key has it.
pub fn outside(alloc: Global, program: &Program, addresses: &[u32]) -> Result<ExtTable, AllocError>
    ensures { IfOk result (λ table. (a : ℕ) → external_at table a ≡ outside program.now addresses.now a) }
{
    let mut table = ExtTable::new(alloc);
    for k in 0..program.key_count() {
        let key = program.key(k);
        add_key(&mut table, addresses, k, &key)?;
    }
    Ok(table)
}
