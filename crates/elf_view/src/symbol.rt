// One symbol and its name. System V gABI, "Symbol Table", "String Table".
ghost use Rattle.std.specs.Prelude.{◌≡◌, ◌≤◌, ◌<◌, ◌+◌, ℕ, length, take, position, not, ◌==◌};
ghost use Rattle.std.specs.Cmp.Lexicographic.{slice_cmp};
ghost use Rattle.std.specs.List.{take_while};
ghost use Rattle.std.specs.Ordering.{nat_cmp};
ghost use Rattle.image_model.specs.Image.{symbol_at};
ghost use Rattle.image_model.specs.declared.symbol.TheConstants.{NAME_START_BYTES};
ghost use Rattle.image_model.specs.Names.{fields_of, name_start};
ghost use Rattle.image_model.specs.SectionHeader.{section_bytes, strtab};
ghost use Rattle.image_model.specs.SymbolTable.{st_name, text_at};
ghost use Rattle.elf_view.specs.Views.{symbol_seen};

use crate::bytes::{half_at, word_at};
use image_model::symbol::{NAME_START_BYTES, SymbolFields};
use std::cmp::Ordering;

/// A symbol, with its name lent from the file. `binding` and `kind` are the two halves of st_info.
#[derive(Clone, Copy, Debug)]
pub struct SymView<'a> {
    pub name: &'a [u8],
    pub value: u32,
    pub size: u32,
    pub binding: u8,
    pub kind: u8,
    pub shndx: u16,
}

fn zero_in(bytes: &[u8]) -> Option<usize>
    ensures { result ≡ position (λ c. c == 0) bytes.now }
{
    bytes.iter().position(|c| *c == 0)
}

/// The bytes up to a zero byte.
#[tactic(auto, using(crate::proofs::Texts::before_zero, crate::proofs::Texts::no_zero))]
fn to_zero(bytes: &[u8]) -> &[u8]
    ensures { result.now ≡ take_while (λ c. not (c == 0)) bytes.now }
{
    match zero_in(bytes) {
        Some(end) => &bytes[..end],
        None => bytes,
    }
}

/// The text at a place of a string table.
#[tactic(auto, using(crate::proofs::Texts::all_left))]
fn text_at(texts: &[u8], at: usize) -> &[u8]
    requires { at ≤ length texts.now }
    ensures { result.now ≡ text_at texts.now at }
{
    to_zero(&texts[at..])
}

/// The first bytes of the text at a place of a string table.
#[tactic(auto, using(crate::proofs::Texts::long_start))]
fn text_start(texts: &[u8], at: usize) -> &[u8]
    requires { at ≤ length texts.now }
    ensures { result.now ≡ take NAME_START_BYTES (text_at texts.now at) }
{
    if texts.len() - at <= NAME_START_BYTES {
        to_zero(&texts[at..])
    } else {
        to_zero(&texts[at..at + NAME_START_BYTES])
    }
}

/// The symbol at a place of the file, without its name.
pub fn fields_at(b: &[u8], at: usize) -> SymbolFields
    requires { at + 16 ≤ length b.now }
    ensures { result ≡ fields_of (symbol_at b.now at) }
{
    let info = b[at + 12];
    SymbolFields {
        value: word_at(b, at + 4),
        size: word_at(b, at + 8),
        binding: info / 16,
        kind: info % 16,
        shndx: half_at(b, at + 14),
    }
}

/// The symbol at a place of the file, with its name from the string table.
pub fn symbol_at<'a>(b: &[u8], texts: &'a [u8], at: usize) -> SymView<'a>
    requires lies { at + 16 ≤ length b.now }
    requires table { texts.now ≡ section_bytes b.now (strtab b.now) }
    requires named { st_name b.now at ≤ length texts.now }
    ensures { symbol_seen result ≡ symbol_at b.now at }
{
    let fields = fields_at(b, at);
    SymView {
        name: text_at(texts, word_at(b, at) as usize),
        value: fields.value,
        size: fields.size,
        binding: fields.binding,
        kind: fields.kind,
        shndx: fields.shndx,
    }
}

/// The start of the name of the symbol at a place of the file.
pub fn name_start<'a>(b: &[u8], texts: &'a [u8], at: usize) -> &'a [u8]
    requires lies { at + 16 ≤ length b.now }
    requires table { texts.now ≡ section_bytes b.now (strtab b.now) }
    requires named { st_name b.now at ≤ length texts.now }
    ensures { result.now ≡ name_start (symbol_at b.now at) }
{
    text_start(texts, word_at(b, at) as usize)
}

/// How the starts of the names of the symbols at two places compare. One text has no need to be read.
#[tactic(auto, using(crate::proofs::Texts::same_names))]
pub fn compare_starts(b: &[u8], texts: &[u8], at: usize, other: usize) -> Ordering
    requires lies { at + 16 ≤ length b.now }
    requires other_lies { other + 16 ≤ length b.now }
    requires table { texts.now ≡ section_bytes b.now (strtab b.now) }
    requires named { st_name b.now at ≤ length texts.now }
    requires other_named { st_name b.now other ≤ length texts.now }
    ensures { result ≡ slice_cmp nat_cmp (name_start (symbol_at b.now at)) (name_start (symbol_at b.now other)) }
{
    if word_at(b, at) == word_at(b, other) {
        return Ordering::Equal;
    }
    name_start(b, texts, at).cmp(name_start(b, texts, other))
}
