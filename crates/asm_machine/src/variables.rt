//! The blocks that variables have at first.

ghost use Rattle.std.specs.Prelude.{◌≡◌, ◌≤◌, ◌<◌, ◌+◌, ◌%◌, ◌^◌, ◌∷◌, [], ℕ, true, suc, length, map, replicate, if◌then◌else◌, IfOk, OnOk};
ghost use Rattle.limits.specs.declared.TheConstants.{MOST_BLOCKS, MOST_FRAMES, MOST_VARIABLE_BYTES};
ghost use Rattle.asm_syntax.specs.Sizes.{init_size, variable_size};
ghost use Rattle.asm_shapes.specs.Units.{variable_fits};
ghost use Rattle.asm_mem.specs.Blocks.{set_cells, update};
ghost use Rattle.asm_mem.specs.Order.{Below};
ghost use Rattle.link_model.specs.Program.{keys, OfVariable};
ghost use Rattle.name_addresses.specs.Keys.{ItemFits, declared, declared_item};
ghost use Rattle.asm_machine.specs.Executables.{key_kinds};
ghost use Rattle.asm_machine.specs.Variables.{address_cells, cells_from, init_cells, item_block, named_value, variable_blocks};
ghost use Rattle.asm_machine.specs.Variables.{variable_keys};
ghost use Rattle.asm_machine.specs.Parts.{HasVariables, with_item};

use crate::executable::key_meant;
use asm_mem::blocks::Blocks;
use asm_mem::value::Val;
use asm_syntax::unit::{Init, Variable, variable_size};
use asm_values::operands::symbol_value;
use link_model::key::KeyKind;
use name_addresses::keys::{Key, KeyItem, KeyedProgram};
use std::alloc::{AllocError, Global};

/// Puts a value at an offset, where that is a multiple of four, and empty cells elsewhere.
fn put_address(blocks: &mut Blocks, b: u32, o: u32, v: Val)
    ensures { blocks.new ≡ record blocks.old { live = update b (λ k. set_cells k o (address_cells o v)) blocks.old.live } }
{
    if o % 4 == 0 {
        blocks.write(b, o, v);
    } else {
        blocks.set_empty(b, o);
    }
}

/// Puts an item of the unit's data at an offset.
fn put_item<P: KeyedProgram>(
    p: &P,
    kinds: &[KeyKind],
    unit: u32,
    blocks: &mut Blocks,
    b: u32,
    o: u32,
    item: &Init,
)
    requires { kinds.now ≡ key_kinds (P.program p.now).units }
    ensures { blocks.new
        ≡ record blocks.old {
          live =
              update b (λ k. set_cells k o (init_cells (named_value (P.program p.now).units unit) o item.now)) blocks.old.live;
        } }
{
    match item {
        Init::Int8(n) => blocks.set_bytes(b, o, &[*n]),
        Init::Int16(n) => blocks.set_bytes(b, o, &n.to_be_bytes()),
        Init::Int32(n) => blocks.set_bytes(b, o, &n.to_be_bytes()),
        Init::Bytes(bytes) => blocks.set_bytes(b, o, bytes.items()),
        Init::Space(n) => blocks.set_zeros(b, o, *n),
        Init::Addr(name, offset) => {
            let key = key_meant(p, unit, name);
            put_address(blocks, b, o, symbol_value(kinds, key, *offset, 0));
        }
    }
}

/// Puts all items, one behind another.
fn put_items<P: KeyedProgram>(
    p: &P,
    kinds: &[KeyKind],
    unit: u32,
    blocks: &mut Blocks,
    b: u32,
    init: &[Init],
)
    requires kinds { kinds.now ≡ key_kinds (P.program p.now).units }
    requires size { variable_size init.now ≤ MOST_VARIABLE_BYTES }
    ensures { blocks.new
        ≡ record blocks.old {
          live =
              update b (λ k. set_cells k 0 (cells_from (named_value (P.program p.now).units unit) 0 init.now)) blocks.old.live;
        } }
{
    let mut offset = 0;
    for item in init {
        put_item(p, kinds, unit, blocks, b, offset, item);
        offset += item.size() as u32;
    }
}

#[tactic(auto, using(crate::proofs::Fitting::variable_limit))]
fn size_of(x: &Variable) -> u32
    requires { variable_fits x.now ≡ true }
    ensures value { result ≡ variable_size x.now.init }
    ensures most { result ≤ MOST_VARIABLE_BYTES }
{
    match variable_size(x.init.items()) {
        Some(size) => size,
        None => 0,
    }
}

/// Makes the block of a variable.
fn put_variable<P: KeyedProgram>(
    p: &P,
    kinds: &[KeyKind],
    blocks: &mut Blocks,
    unit: u32,
    x: &Variable,
) -> Result<(), AllocError>
    requires kinds { kinds.now ≡ key_kinds (P.program p.now).units }
    requires fits { variable_fits x.now ≡ true }
    requires next { blocks.old.next < MOST_BLOCKS }
    ensures { OnOk result
        (blocks.new ≡ record {
          live = item_block (P.program p.now).units blocks.old.next unit (OfVariable x.now) ∷ blocks.old.live;
          next = suc blocks.old.next;
        }) }
{
    let b = blocks.alloc_block(size_of(x), x.writable)?;
    put_items(p, kinds, unit, blocks, b, x.init.items());
    Ok(())
}

/// Makes the block of a key that is a variable.
fn put_key<P: KeyedProgram>(
    p: &P,
    kinds: &[KeyKind],
    blocks: &mut Blocks,
    key: &Key,
) -> Result<(), AllocError>
    requires kinds { kinds.now ≡ key_kinds (P.program p.now).units }
    requires fits { ItemFits key.now.item }
    requires next { blocks.old.next < MOST_BLOCKS }
    ensures { OnOk result (blocks.new ≡ with_item (P.program p.now).units blocks.old key.now.unit (declared_item key.now.item)) }
{
    if let KeyItem::Variable(x) = key.item {
        put_variable(p, kinds, blocks, key.unit, x)?;
    }
    Ok(())
}

/// The blocks of all variables.
pub fn variable_blocks<P: KeyedProgram>(
    alloc: Global,
    p: &P,
    kinds: &[KeyKind],
) -> Result<Blocks, AllocError>
    requires { kinds.now ≡ key_kinds (P.program p.now).units }
    ensures made { IfOk result (λ m. HasVariables (P.program p.now).units (variable_keys (P.program p.now).units) m) }
    ensures few { IfOk result (λ m. m.next < MOST_FRAMES) }
{
    let mut blocks = Blocks::new(alloc);
    for k in 0..p.key_count() {
        let key = p.key(k);
        put_key(p, kinds, &mut blocks, &key)?;
    }
    Ok(blocks)
}
