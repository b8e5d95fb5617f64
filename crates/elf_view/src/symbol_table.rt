// The tests of the symbol table and its string table, in their order. System V gABI, "Symbol Table", "String Table".
ghost use Rattle.std.specs.Prelude.{◌≡◌, ◌≤◌, ◌<◌, ◌+◌, ◌*◌, ◌/◌, ℕ, length, ◌++◌, OnOk, IfOk, IfErr};
ghost use Rattle.ordered_tests.specs.Checks.{first_fault, fault_of};
ghost use Rattle.image_model.specs.Errors.{offset_of};
ghost use Rattle.image_model.specs.SectionHeader.{section_header, sh_type, sh_offset, sh_size, sh_link, symtab, strtab};
ghost use Rattle.image_model.specs.SymbolTable.{symbol_count, symbol_place};
ghost use Rattle.image_model.specs.Tests.{are_tables_placed, are_texts_ended, has_name, symtab_tests, table_tests, names_tests};
ghost use Rattle.elf_view.specs.Facts.{IsHeaded, AreTablesPlaced};

use crate::bytes::{lies_in, word_at};
use crate::file_header::e_shnum;
use crate::section_header::{
    only_symtab, section_header, sh_entsize, sh_link, sh_offset, sh_size, sh_type,
};
use image_model::error::ElfError;

const SHT_STRTAB: u32 = 3;

const SYMBOL_SIZE: u32 = 16;

fn are_tables_placed(b: &[u8], at: usize) -> bool
    requires headed { IsHeaded b.now }
    requires lies { at + 40 ≤ length b.now }
    requires table { at ≡ symtab b.now }
    ensures { result ≡ are_tables_placed b.now }
{
    let size = sh_size(b, at);
    let link = sh_link(b, at) as usize;
    if !lies_in(b, sh_offset(b, at), size) || size % SYMBOL_SIZE != 0 || link >= e_shnum(b) {
        return false;
    }
    let texts = section_header(b, link);
    sh_type(b, texts) == SHT_STRTAB && lies_in(b, sh_offset(b, texts), sh_size(b, texts))
}

fn are_texts_ended(b: &[u8], at: usize) -> bool
    requires lies { at + 40 ≤ length b.now }
    requires table { at ≡ strtab b.now }
    requires placed { sh_offset b.now at + sh_size b.now at ≤ length b.now }
    ensures { result ≡ are_texts_ended b.now }
{
    let size = sh_size(b, at) as usize;
    size == 0 || b[sh_offset(b, at) as usize + size - 1] == 0
}

/// The tests of the two tables as a whole. `at` is the place of the symbol table's header.
fn check_tables(b: &[u8], at: usize) -> Result<(), ElfError>
    requires headed { IsHeaded b.now }
    requires lies { at + 40 ≤ length b.now }
    requires table { at ≡ symtab b.now }
    ensures tests { fault_of result ≡ first_fault (table_tests b.now) }
    ensures placed { IfErr result (λ e. offset_of e ≤ length b.now) }
    ensures tables { OnOk result (AreTablesPlaced b.now) }
{
    if sh_entsize(b, at) != SYMBOL_SIZE {
        return Err(ElfError::EntrySize(at as u32 + 36));
    }
    if !are_tables_placed(b, at) {
        return Err(ElfError::SymRange(at as u32));
    }
    let texts = section_header(b, sh_link(b, at) as usize);
    if !are_texts_ended(b, texts) {
        return Err(ElfError::NameEnd(texts as u32));
    }
    Ok(())
}

fn has_name(b: &[u8], symbol: usize, size: u32) -> bool
    requires lies { symbol + 16 ≤ length b.now }
    requires texts { size ≡ sh_size b.now (strtab b.now) }
    ensures { result ≡ has_name b.now symbol }
{
    let name = word_at(b, symbol);
    name == 0 || name < size
}

/// The tests of the symbols' names. `at` is the place of the symbol table's header, `size` the string table's size.
#[tactic(auto, using(crate::proofs::Symbols::names_pass, crate::proofs::Symbols::names_fail))]
fn check_names(b: &[u8], at: usize, size: u32) -> Result<(), ElfError>
    requires headed { IsHeaded b.now }
    requires lies { at + 40 ≤ length b.now }
    requires table { at ≡ symtab b.now }
    requires placed { AreTablesPlaced b.now }
    requires texts { size ≡ sh_size b.now (strtab b.now) }
    ensures tests { fault_of result ≡ first_fault (names_tests b.now) }
    ensures placed { IfErr result (λ e. offset_of e ≤ length b.now) }
{
    let symbols = sh_offset(b, at) as usize;
    for i in 0..(sh_size(b, at) / SYMBOL_SIZE) as usize {
        let symbol = symbols + SYMBOL_SIZE as usize * i;
        if !has_name(b, symbol, size) {
            return Err(ElfError::NameEnd(symbol as u32));
        }
    }
    Ok(())
}

/// The tests of the symbol table, and the place of its header.
pub fn check_symbols(b: &[u8]) -> Result<usize, ElfError>
    requires { IsHeaded b.now }
    ensures tests { fault_of result ≡ first_fault (symtab_tests b.now ++ (table_tests b.now ++ names_tests b.now)) }
    ensures placed { IfErr result (λ e. offset_of e ≤ length b.now) }
    ensures found { IfOk result (λ at. at ≡ symtab b.now) }
    ensures lies { IfOk result (λ at. at + 40 ≤ length b.now) }
    ensures tables { OnOk result (AreTablesPlaced b.now) }
{
    let at = only_symtab(b)?;
    check_tables(b, at)?;
    let texts = section_header(b, sh_link(b, at) as usize);
    check_names(b, at, sh_size(b, texts))?;
    Ok(at)
}
