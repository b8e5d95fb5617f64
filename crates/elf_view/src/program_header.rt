// The tests of the program headers, in their order. System V gABI, "Program Header".
ghost use Rattle.std.specs.Prelude.{◌≡◌, ◌≤◌, ◌<◌, ◌+◌, ◌*◌, ℕ, length, OnOk, IfOk, IfErr};
ghost use Rattle.std.specs.List.{list_all};
ghost use Rattle.ordered_tests.specs.Checks.{first_fault, fault_of};
ghost use Rattle.limits.specs.declared.TheConstants.{MOST_LOADED_BYTES};
ghost use Rattle.image_model.specs.FileHeader.{e_phnum};
ghost use Rattle.image_model.specs.Errors.{offset_of};
ghost use Rattle.image_model.specs.ProgramHeader.{p_offset, p_vaddr, p_filesz, p_memsz, p_flags, program_header, is_load, loads_before};
ghost use Rattle.image_model.specs.Tests.{has_range, are_apart, total_memsz, numbered_segment_tests, segments_tests};
ghost use Rattle.elf_view.specs.Facts.{IsHeaded};

use crate::bytes::{lies_in, word_at};
use crate::file_header::{e_phnum, e_phoff};
use image_model::error::ElfError;
use limits::MOST_LOADED_BYTES;

const PT_LOAD: u32 = 1;

const PT_DYNAMIC: u32 = 2;

const PT_INTERP: u32 = 3;

/// The place of program header `i`.
pub fn program_header(b: &[u8], i: usize) -> usize
    requires headed { IsHeaded b.now }
    requires within { i < e_phnum b.now }
    ensures place { result ≡ program_header b.now i }
    ensures lies { result + 32 ≤ length b.now }
{
    e_phoff(b) + 32 * i
}

pub fn p_offset(b: &[u8], at: usize) -> u32
    requires { at + 32 ≤ length b.now }
    ensures { result ≡ p_offset b.now at }
{
    word_at(b, at + 4)
}

pub fn p_vaddr(b: &[u8], at: usize) -> u32
    requires { at + 32 ≤ length b.now }
    ensures { result ≡ p_vaddr b.now at }
{
    word_at(b, at + 8)
}

pub fn p_filesz(b: &[u8], at: usize) -> u32
    requires { at + 32 ≤ length b.now }
    ensures { result ≡ p_filesz b.now at }
{
    word_at(b, at + 16)
}

pub fn p_memsz(b: &[u8], at: usize) -> u32
    requires { at + 32 ≤ length b.now }
    ensures { result ≡ p_memsz b.now at }
{
    word_at(b, at + 20)
}

pub fn p_flags(b: &[u8], at: usize) -> u32
    requires { at + 32 ≤ length b.now }
    ensures { result ≡ p_flags b.now at }
{
    word_at(b, at + 24)
}

pub fn is_load(b: &[u8], at: usize) -> bool
    requires { at + 32 ≤ length b.now }
    ensures { result ≡ is_load b.now at }
{
    word_at(b, at) == PT_LOAD
}

fn has_range(b: &[u8], at: usize) -> bool
    requires { at + 32 ≤ length b.now }
    ensures { result ≡ has_range b.now at }
{
    let filesz = p_filesz(b, at);
    let memsz = p_memsz(b, at);
    filesz <= memsz
        && (filesz == 0 || lies_in(b, p_offset(b, at), filesz))
        && u64::from(p_vaddr(b, at)) + u64::from(memsz) <= 0x1_0000_0000
}

fn are_apart(b: &[u8], at: usize, other: usize) -> bool
    requires one { at + 32 ≤ length b.now }
    requires two { other + 32 ≤ length b.now }
    ensures { result ≡ are_apart b.now at other }
{
    let start = u64::from(p_vaddr(b, at));
    let size = u64::from(p_memsz(b, at));
    let other_start = u64::from(p_vaddr(b, other));
    let other_size = u64::from(p_memsz(b, other));
    !(0 < size && 0 < other_size && start < other_start + other_size && other_start < start + size)
}

/// Whether the segment of the header at `at` meets none of the PT_LOAD headers before header `i`.
#[tactic(auto, using(crate::proofs::ProgramHeaders::apart_step))]
fn is_apart_from_earlier(b: &[u8], i: usize, at: usize) -> bool
    requires headed { IsHeaded b.now }
    requires within { i < e_phnum b.now }
    requires lies { at + 32 ≤ length b.now }
    ensures { result ≡ list_all (are_apart b.now at) (loads_before b.now i) }
{
    for j in 0..i {
        let earlier = program_header(b, j);
        if is_load(b, earlier) && !are_apart(b, at, earlier) {
            return false;
        }
    }
    true
}

/// The tests of header `i`. `loaded` is the size in memory of the PT_LOAD headers before it, and the answer with it.
#[tactic(auto, using(image_model::proofs::Loads::total_more))]
fn check_segment(b: &[u8], i: usize, loaded: u64) -> Result<u64, ElfError>
    requires headed { IsHeaded b.now }
    requires within { i < e_phnum b.now }
    requires total { loaded ≡ total_memsz b.now (loads_before b.now i) }
    requires most { loaded ≤ MOST_LOADED_BYTES }
    ensures tests { fault_of result ≡ first_fault (numbered_segment_tests b.now i) }
    ensures placed { IfErr result (λ e. offset_of e ≤ length b.now) }
    ensures total { IfOk result (λ n. n ≡ total_memsz b.now (loads_before b.now (i + 1))) }
    ensures most { IfOk result (λ n. n ≤ MOST_LOADED_BYTES) }
{
    let at = program_header(b, i);
    let kind = word_at(b, at);
    if kind == PT_DYNAMIC || kind == PT_INTERP {
        return Err(ElfError::Dynamic(at as u32));
    }
    if kind != PT_LOAD {
        return Ok(loaded);
    }
    if !has_range(b, at) {
        return Err(ElfError::SegRange(at as u32));
    }
    let loaded = loaded + u64::from(p_memsz(b, at));
    if loaded > u64::from(MOST_LOADED_BYTES) {
        return Err(ElfError::Limit(at as u32, MOST_LOADED_BYTES));
    }
    if !is_apart_from_earlier(b, i, at) {
        return Err(ElfError::SegOverlap(at as u32));
    }
    Ok(loaded)
}

/// The tests of all program headers.
#[tactic(auto, using(ordered_tests::proofs::Faults::each_number_passes, ordered_tests::proofs::Faults::each_number_fails))]
pub fn check_segments(b: &[u8]) -> Result<(), ElfError>
    requires { IsHeaded b.now }
    ensures tests { fault_of result ≡ first_fault (segments_tests b.now) }
    ensures placed { IfErr result (λ e. offset_of e ≤ length b.now) }
{
    let mut loaded = 0;
    for i in 0..e_phnum(b) {
        loaded = check_segment(b, i, loaded)?;
    }
    Ok(())
}
