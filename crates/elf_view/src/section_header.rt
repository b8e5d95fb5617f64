// Section headers, and the one symbol table among them. System V gABI, "Sections".
ghost use Rattle.std.specs.Prelude.{◌≡◌, ◌≤◌, ◌<◌, ◌+◌, ◌*◌, ℕ, length, [], ◌∷◌, IfNone, IfSome, IfOk, IfErr};
ghost use Rattle.ordered_tests.specs.Checks.{first_fault, fault_of};
ghost use Rattle.image_model.specs.FileHeader.{e_shnum};
ghost use Rattle.image_model.specs.Errors.{offset_of};
ghost use Rattle.image_model.specs.SectionHeader.{section_header, sh_type, sh_offset, sh_size, sh_link, sh_entsize, symtab};
ghost use Rattle.image_model.specs.Tests.{symtab_tests};
ghost use Rattle.elf_view.specs.Facts.{IsHeaded};
ghost use Rattle.elf_view.specs.Left.{symtabs_from};

use crate::bytes::word_at;
use crate::file_header::{e_shnum, e_shoff};
use image_model::error::ElfError;

const SHT_SYMTAB: u32 = 2;

/// The place of section header `i`.
pub fn section_header(b: &[u8], i: usize) -> usize
    requires headed { IsHeaded b.now }
    requires within { i < e_shnum b.now }
    ensures place { result ≡ section_header b.now i }
    ensures lies { result + 40 ≤ length b.now }
{
    e_shoff(b) + 40 * i
}

pub fn sh_type(b: &[u8], at: usize) -> u32
    requires { at + 40 ≤ length b.now }
    ensures { result ≡ sh_type b.now at }
{
    word_at(b, at + 4)
}

pub fn sh_offset(b: &[u8], at: usize) -> u32
    requires { at + 40 ≤ length b.now }
    ensures { result ≡ sh_offset b.now at }
{
    word_at(b, at + 16)
}

pub fn sh_size(b: &[u8], at: usize) -> u32
    requires { at + 40 ≤ length b.now }
    ensures { result ≡ sh_size b.now at }
{
    word_at(b, at + 20)
}

pub fn sh_link(b: &[u8], at: usize) -> u32
    requires { at + 40 ≤ length b.now }
    ensures { result ≡ sh_link b.now at }
{
    word_at(b, at + 24)
}

pub fn sh_entsize(b: &[u8], at: usize) -> u32
    requires { at + 40 ≤ length b.now }
    ensures { result ≡ sh_entsize b.now at }
{
    word_at(b, at + 36)
}

/// The number of the first symbol table among the sections from `start` on.
#[tactic(auto, using(crate::proofs::SectionHeaders::symtabs_pass, crate::proofs::SectionHeaders::symtabs_find, crate::proofs::SectionHeaders::symtabs_end))]
fn symtab_from(b: &[u8], start: usize) -> Option<usize>
    requires headed { IsHeaded b.now }
    requires within { start ≤ e_shnum b.now }
    ensures none { IfNone result (symtabs_from b.now start ≡ []) }
    ensures some { IfSome result (λ i. symtabs_from b.now start ≡ section_header b.now i ∷ symtabs_from b.now (i + 1)) }
    ensures within { IfSome result (λ i. i < e_shnum b.now) }
{
    for i in start..e_shnum(b) {
        if sh_type(b, section_header(b, i)) == SHT_SYMTAB {
            return Some(i);
        }
    }
    None
}

/// The place of the header of the one symbol table.
pub fn only_symtab(b: &[u8]) -> Result<usize, ElfError>
    requires { IsHeaded b.now }
    ensures tests { fault_of result ≡ first_fault (symtab_tests b.now) }
    ensures placed { IfErr result (λ e. offset_of e ≤ length b.now) }
    ensures found { IfOk result (λ at. at ≡ symtab b.now) }
    ensures lies { IfOk result (λ at. at + 40 ≤ length b.now) }
{
    let Some(first) = symtab_from(b, 0) else {
        return Err(ElfError::NoSymtab(32));
    };
    if let Some(second) = symtab_from(b, first + 1) {
        return Err(ElfError::TwoSymtabs(section_header(b, second) as u32));
    }
    Ok(section_header(b, first))
}
