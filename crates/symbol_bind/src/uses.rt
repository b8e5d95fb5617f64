//! The uses of keys, each of which narrows what is open for its key.

ghost use Rattle.std.specs.Prelude.{◌≡◌, ◌<◌, ◌+◌, ◌^◌, ◌++◌, ◌∷◌, [], List, length, unwrap_or};
ghost use Rattle.asm_syntax.specs.declared.instr.Instr.TheVariants as instrs;
ghost use Rattle.asm_syntax.specs.Sizes.{variable_size};
ghost use Rattle.code_model.specs.Addresses.{loaded_word, address_after};
ghost use Rattle.link_model.specs.Uses.{Use, instr_uses, code_uses, init_uses, data_uses, item_uses};
ghost use Rattle.symbol_bind.specs.Open.{AreOpen, use_by_instr, use_by_data};
ghost use Rattle.name_addresses.specs.Keys.{declared, ItemFits};
ghost use Rattle.name_addresses.specs.Given.{given};

use crate::address_set::AddressSet;
use asm_syntax::instr::{Instr, Plain};
use asm_syntax::unit::Init;
use elf_view::LoadedSegments;
use layout_file::layout::Layout;
use name_addresses::keys::{Key, KeyItem, KeyedProgram};
use reloc_match::matching::length;

/// One more use of a key: an instruction.
#[tactic(auto, using(crate::proofs::Narrowed::open_kept))]
fn note_instr(
    sets: &mut [AddressSet],
    layout: &Layout,
    key: Option<u32>,
    at: u64,
    plain: &Plain,
    word: u32,
)
    ensures same { length sets.new ≡ length sets.old }
    ensures open { (us : List Use) → AreOpen layout.now us sets.old
        → AreOpen layout.now (us ++ use_by_instr key at plain.now word ∷ []) sets.new }
{
    if let Some(k) = key {
        let k = k as usize;
        if k < sets.len() {
            sets[k] = sets[k].by_plain(layout, (at % 0x1_0000_0000) as u32, plain, word);
        }
    }
}

/// One more use of a key: a word of data.
#[tactic(auto, using(crate::proofs::Narrowed::open_kept))]
fn note_data(
    sets: &mut [AddressSet],
    layout: &Layout,
    key: Option<u32>,
    at: u64,
    offset: i32,
    word: u32,
)
    ensures same { length sets.new ≡ length sets.old }
    ensures open { (us : List Use) → AreOpen layout.now us sets.old
        → AreOpen layout.now (us ++ use_by_data key at offset word ∷ []) sets.new }
{
    if let Some(k) = key {
        let k = k as usize;
        if k < sets.len() {
            sets[k] = sets[k].by_data(offset, word);
        }
    }
}

fn loaded_word(segments: &LoadedSegments, at: u64) -> u32
    ensures { result ≡ loaded_word segments.now at }
{
    segments.word_at(at).unwrap_or(0)
}

/// The address behind an instruction.
#[tactic(auto, unfolding(code_model::specs::Addresses::address_after))]
fn address_after(segments: &LoadedSegments, at: u64, instr: &Instr) -> u64
    requires { at < 2 ^ 63 }
    ensures value { result ≡ address_after segments.now at instr.now }
    ensures near { result < at + 24 }
{
    at + 4 * u64::from(length(instr, loaded_word(segments, at)))
}

/// The use that an instruction at an address is, if it refers to a symbol.
fn note_any<P: KeyedProgram>(
    sets: &mut [AddressSet],
    segments: &LoadedSegments,
    layout: &Layout,
    program: &P,
    unit: u32,
    at: u64,
    instr: &Instr,
)
    ensures same { length sets.new ≡ length sets.old }
    ensures open { (us : List Use) → AreOpen layout.now us sets.old
        → AreOpen layout.now (us ++ instr_uses (given segments.now layout.now (P.program program.now)) unit at instr.now) sets.new }
{
    if let Instr::Plain(plain) = instr {
        if let Some(symbol) = plain.symbol() {
            let word = loaded_word(segments, at);
            let key = program.resolve(unit, symbol.name());
            note_instr(sets, layout, key, at, plain, word);
        }
    }
}

/// The uses in code that stands from an address on, in a unit.
pub fn note_code<P: KeyedProgram>(
    sets: &mut [AddressSet],
    segments: &LoadedSegments,
    layout: &Layout,
    program: &P,
    unit: u32,
    at: u32,
    code: &[Instr],
)
    requires few { length code.now < 2 ^ 32 }
    ensures same { length sets.new ≡ length sets.old }
    ensures open { (us : List Use) → AreOpen layout.now us sets.old
        → AreOpen layout.now (us ++ code_uses (given segments.now layout.now (P.program program.now)) unit at code.now) sets.new }
{
    let mut place = u64::from(at);
    for instr in code {
        note_any(sets, segments, layout, program, unit, place, instr);
        place = address_after(segments, place, instr);
    }
}

/// The use that an item of data at an address is, if it holds a symbol's address.
fn note_item<P: KeyedProgram>(
    sets: &mut [AddressSet],
    segments: &LoadedSegments,
    layout: &Layout,
    program: &P,
    unit: u32,
    at: u64,
    item: &Init,
)
    ensures same { length sets.new ≡ length sets.old }
    ensures open { (us : List Use) → AreOpen layout.now us sets.old
        → AreOpen layout.now (us ++ init_uses (given segments.now layout.now (P.program program.now)) unit at item.now) sets.new }
{
    if let Init::Addr(name, offset) = item {
        let word = loaded_word(segments, at);
        let key = program.resolve(unit, name);
        note_data(sets, layout, key, at, *offset, word);
    }
}

/// The uses in data that stands from an address on, in a unit.
pub fn note_items<P: KeyedProgram>(
    sets: &mut [AddressSet],
    segments: &LoadedSegments,
    layout: &Layout,
    program: &P,
    unit: u32,
    at: u32,
    init: &[Init],
)
    requires few { variable_size init.now < 2 ^ 32 }
    ensures same { length sets.new ≡ length sets.old }
    ensures open { (us : List Use) → AreOpen layout.now us sets.old
        → AreOpen layout.now (us ++ data_uses (given segments.now layout.now (P.program program.now)) unit at init.now) sets.new }
{
    let mut place = u64::from(at);
    for item in init {
        note_item(sets, segments, layout, program, unit, place, item);
        place += item.size();
    }
}

/// The uses in what a key stands for, at its address.
pub fn note_key<P: KeyedProgram>(
    sets: &mut [AddressSet],
    segments: &LoadedSegments,
    layout: &Layout,
    program: &P,
    key: &Key,
    at: u32,
)
    requires fits { ItemFits key.now.item }
    ensures same { length sets.new ≡ length sets.old }
    ensures open { (us : List Use) → AreOpen layout.now us sets.old
        → AreOpen layout.now (us ++ item_uses (given segments.now layout.now (P.program program.now)) key.now.unit at
        (declared key.now).item) sets.new }
{
    match key.item {
        KeyItem::Function(f) => note_code(
            sets,
            segments,
            layout,
            program,
            key.unit,
            at,
            f.code.items(),
        ),
        KeyItem::Variable(x) => note_items(
            sets,
            segments,
            layout,
            program,
            key.unit,
            at,
            x.init.items(),
        ),
        KeyItem::External(_) => {}
    }
}
