//! An executable with one segment of code.

use crate::states::MOST_CODE_WORDS;
use std::alloc::{AllocError, Global};

/// The words before the code: the file's header, one program header, an empty symbol table and an empty string table.
/// System V gABI, "ELF Header" to "Sections".
const HEAD: [u32; 41] = [
    0x7f45_4c46,
    0x0102_0100,
    0,
    0,
    0x0002_0014,
    1,
    0,
    52,
    84,
    0,
    0x0034_0020,
    0x0001_0028,
    0x0002_0000,
    1,
    164,
    0,
    0,
    0,
    0,
    5,
    0,
    0,
    2,
    0,
    0,
    0,
    0,
    1,
    0,
    0,
    16,
    0,
    3,
    0,
    0,
    0,
    0,
    0,
    0,
    0,
    0,
];

/// The places of e_entry, p_vaddr, p_filesz and p_memsz among the words of the head.
const ENTRY: usize = 6;

const ADDRESS: usize = 15;

const FILE_SIZE: usize = 17;

const MEMORY_SIZE: usize = 18;

/// The bytes of words, the highest byte of each first.
pub fn bytes_of(alloc: Global, words: &[u32]) -> Result<Vec<u8>, AllocError> {
    let mut bytes = Vec::new(alloc);
    for word in words {
        bytes.extend_from_slice(&word.to_be_bytes())?;
    }
    Ok(bytes)
}

/// The file with this code at an address.
pub fn file_of(alloc: Global, address: u32, code: &[u32]) -> Result<Vec<u8>, AllocError> {
    let mut head = HEAD;
    let size = code.len().min(MOST_CODE_WORDS) as u32 * 4;
    head[ENTRY] = address;
    head[ADDRESS] = address;
    head[FILE_SIZE] = size;
    head[MEMORY_SIZE] = size;
    let mut bytes = bytes_of(alloc, &head)?;
    let tail = bytes_of(alloc, code)?;
    bytes.extend_from_slice(tail.as_slice())?;
    Ok(bytes)
}
