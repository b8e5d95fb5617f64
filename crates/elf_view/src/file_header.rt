// The tests of the file header, in their order. System V gABI, "ELF Header".
ghost use Rattle.std.specs.Prelude.{◌≡◌, ◌≤◌, ◌<◌, ◌+◌, ◌*◌, length, OnOk, IfErr};
ghost use Rattle.ordered_tests.specs.Checks.{first_fault, fault_of};
ghost use Rattle.image_model.specs.FileHeader.{e_phoff, e_phnum, e_shoff, e_shnum};
ghost use Rattle.limits.specs.declared.TheConstants.{MOST_IMAGE_BYTES};
ghost use Rattle.image_model.specs.Errors.{offset_of};
ghost use Rattle.image_model.specs.Tests.{size_tests, ident_tests, kind_tests, place_tests, header_tests};
ghost use Rattle.elf_view.specs.Facts.{ArePlaced, IsHeaded};

use crate::bytes::{half_at, lies_in, word_at};
use image_model::error::ElfError;
use limits::{MOST_IMAGE_BYTES, MOST_PROGRAM_HEADERS};

const FILE_HEADER_SIZE: usize = 52;

pub fn e_phoff(b: &[u8]) -> usize
    requires { 52 ≤ length b.now }
    ensures { result ≡ e_phoff b.now }
{
    word_at(b, 28) as usize
}

pub fn e_phnum(b: &[u8]) -> usize
    requires { 52 ≤ length b.now }
    ensures { result ≡ e_phnum b.now }
{
    usize::from(half_at(b, 44))
}

pub fn e_shoff(b: &[u8]) -> usize
    requires { 52 ≤ length b.now }
    ensures { result ≡ e_shoff b.now }
{
    word_at(b, 32) as usize
}

pub fn e_shnum(b: &[u8]) -> usize
    requires { 52 ≤ length b.now }
    ensures { result ≡ e_shnum b.now }
{
    usize::from(half_at(b, 48))
}

fn check_size(b: &[u8]) -> Result<(), ElfError>
    ensures tests { fault_of result ≡ first_fault (size_tests b.now) }
    ensures placed { IfErr result (λ e. offset_of e ≤ length b.now) }
    ensures least { OnOk result (52 ≤ length b.now) }
    ensures most { OnOk result (length b.now ≤ MOST_IMAGE_BYTES) }
{
    if b.len() > MOST_IMAGE_BYTES as usize {
        return Err(ElfError::Limit(0, MOST_IMAGE_BYTES));
    }
    if b.len() < FILE_HEADER_SIZE {
        return Err(ElfError::Short(b.len() as u32));
    }
    Ok(())
}

fn check_ident(b: &[u8]) -> Result<(), ElfError>
    requires { 52 ≤ length b.now }
    ensures tests { fault_of result ≡ first_fault (ident_tests b.now) }
    ensures placed { IfErr result (λ e. offset_of e ≤ length b.now) }
{
    if b[0] != 0x7f {
        return Err(ElfError::Ident(0));
    }
    if b[1] != 0x45 {
        return Err(ElfError::Ident(1));
    }
    if b[2] != 0x4c {
        return Err(ElfError::Ident(2));
    }
    if b[3] != 0x46 {
        return Err(ElfError::Ident(3));
    }
    if b[4] != 1 {
        return Err(ElfError::Ident(4));
    }
    if b[5] != 2 {
        return Err(ElfError::Ident(5));
    }
    if b[6] != 1 {
        return Err(ElfError::Ident(6));
    }
    Ok(())
}

fn check_kind(b: &[u8]) -> Result<(), ElfError>
    requires { 52 ≤ length b.now }
    ensures tests { fault_of result ≡ first_fault (kind_tests b.now) }
    ensures placed { IfErr result (λ e. offset_of e ≤ length b.now) }
{
    if half_at(b, 16) != 2 {
        return Err(ElfError::Kind(16));
    }
    if half_at(b, 18) != 20 {
        return Err(ElfError::Machine(18));
    }
    if usize::from(half_at(b, 40)) != FILE_HEADER_SIZE {
        return Err(ElfError::EntrySize(40));
    }
    if half_at(b, 44) > MOST_PROGRAM_HEADERS {
        return Err(ElfError::Limit(44, u32::from(MOST_PROGRAM_HEADERS)));
    }
    Ok(())
}

fn check_places(b: &[u8]) -> Result<(), ElfError>
    requires { 52 ≤ length b.now }
    ensures tests { fault_of result ≡ first_fault (place_tests b.now) }
    ensures placed { IfErr result (λ e. offset_of e ≤ length b.now) }
    ensures lie { OnOk result (ArePlaced b.now) }
{
    let phnum = half_at(b, 44);
    let shnum = half_at(b, 48);
    if phnum != 0 && half_at(b, 42) != 32 {
        return Err(ElfError::EntrySize(42));
    }
    if shnum != 0 && half_at(b, 46) != 40 {
        return Err(ElfError::EntrySize(46));
    }
    if phnum != 0 && !lies_in(b, word_at(b, 28), 32 * u32::from(phnum)) {
        return Err(ElfError::Short(28));
    }
    if shnum != 0 && !lies_in(b, word_at(b, 32), 40 * u32::from(shnum)) {
        return Err(ElfError::Short(32));
    }
    Ok(())
}

/// The tests of the file header.
pub fn check_header(b: &[u8]) -> Result<(), ElfError>
    ensures tests { fault_of result ≡ first_fault (header_tests b.now) }
    ensures placed { IfErr result (λ e. offset_of e ≤ length b.now) }
    ensures headed { OnOk result (IsHeaded b.now) }
{
    check_size(b)?;
    check_ident(b)?;
    check_kind(b)?;
    check_places(b)
}
