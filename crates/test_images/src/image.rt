//! Small executables, made from segments and symbols.

use std::alloc::{AllocError, Global};

const FILE_HEADER_SIZE: u32 = 52;

const PROGRAM_HEADER_SIZE: u32 = 32;

const SYMBOL_SIZE: u32 = 16;

/// A segment, whose bytes stand so far behind the first segment's in the file.
#[derive(Clone, Copy, Drop)]
struct Segment {
    start: u32,
    filesz: u32,
    vaddr: u32,
    memsz: u32,
    flags: u32,
}

/// An executable of 32 bits, big-endian, for PowerPC (System V gABI, "ELF Header" to "Symbol Table"): LOAD segments in the order
/// in which they are added, one symbol table behind them with a null symbol in front, its string table, and three section headers.
#[derive(Drop)]
pub struct TestImage {
    entry: u32,
    segments: Vec<Segment>,
    loaded: Vec<u8>,
    symbols: Vec<u8>,
    names: Vec<u8>,
}

/// A length in a field of 32 bits. No test has as much as that.
fn field(length: usize) -> u32 {
    u32::try_from(length).unwrap_or(u32::MAX)
}

fn put_words(bytes: &mut Vec<u8>, words: &[u32]) -> Result<(), AllocError> {
    for word in words {
        bytes.extend_from_slice(&word.to_be_bytes())?;
    }
    Ok(())
}

/// A half and two bytes, or two halves, as one word.
fn joined(high: u16, low: u16) -> u32 {
    (u32::from(high) << 16) | u32::from(low)
}

impl TestImage {
    pub fn new(alloc: Global, entry: u32) -> Result<TestImage, AllocError> {
        let mut symbols = Vec::new(alloc);
        put_words(&mut symbols, &[0; 4])?;
        let mut names = Vec::new(alloc);
        names.push(0)?;
        Ok(TestImage {
            entry,
            segments: Vec::new(alloc),
            loaded: Vec::new(alloc),
            symbols,
            names,
        })
    }

    /// Adds a segment of so many bytes in memory, of which the file holds these.
    pub fn add_segment(
        &mut self,
        vaddr: u32,
        flags: u32,
        memsz: u32,
        bytes: &[u8],
    ) -> Result<(), AllocError> {
        self.segments.push(Segment {
            start: field(self.loaded.len()),
            filesz: field(bytes.len()),
            vaddr,
            memsz,
            flags,
        })?;
        self.loaded.extend_from_slice(bytes)
    }

    /// Adds a symbol with no size. `info` is its binding times 16 and its kind.
    pub fn add_symbol(
        &mut self,
        name: &[u8],
        value: u32,
        info: u8,
        shndx: u16,
    ) -> Result<(), AllocError> {
        let start = field(self.names.len());
        self.names.extend_from_slice(name)?;
        self.names.push(0)?;
        let last = joined(u16::from(info) << 8, shndx);
        put_words(&mut self.symbols, &[start, value, 0, last])
    }

    /// Where the bytes of the segments begin in the file.
    fn loaded_start(&self) -> u32 {
        let headers = field(self.segments.len()).wrapping_mul(PROGRAM_HEADER_SIZE);
        FILE_HEADER_SIZE.wrapping_add(headers)
    }

    fn symbols_start(&self) -> u32 {
        self.loaded_start().wrapping_add(field(self.loaded.len()))
    }

    fn names_start(&self) -> u32 {
        self.symbols_start().wrapping_add(field(self.symbols.len()))
    }

    fn put_file_header(&self, file: &mut Vec<u8>) -> Result<(), AllocError> {
        let sections = self.names_start().wrapping_add(field(self.names.len()));
        let count = u16::try_from(self.segments.len()).unwrap_or(u16::MAX);
        put_words(
            file,
            &[
                0x7f45_4c46,
                0x0102_0100,
                0,
                0,
                0x0002_0014,
                1,
                self.entry,
                FILE_HEADER_SIZE,
                sections,
                0,
                0x0034_0020,
                joined(count, 40),
                0x0003_0000,
            ],
        )
    }

    fn put_program_headers(&self, file: &mut Vec<u8>) -> Result<(), AllocError> {
        for s in &self.segments {
            let offset = self.loaded_start().wrapping_add(s.start);
            put_words(
                file,
                &[1, offset, s.vaddr, s.vaddr, s.filesz, s.memsz, s.flags, 4],
            )?;
        }
        Ok(())
    }

    fn put_section_headers(&self, file: &mut Vec<u8>) -> Result<(), AllocError> {
        let symbols = field(self.symbols.len());
        let names = field(self.names.len());
        put_words(file, &[0; 10])?;
        put_words(
            file,
            &[
                0,
                2,
                0,
                0,
                self.symbols_start(),
                symbols,
                2,
                1,
                4,
                SYMBOL_SIZE,
            ],
        )?;
        put_words(file, &[0, 3, 0, 0, self.names_start(), names, 0, 0, 1, 0])
    }

    /// The bytes of the file.
    pub fn file(&self, alloc: Global) -> Result<Vec<u8>, AllocError> {
        let mut file = Vec::new(alloc);
        self.put_file_header(&mut file)?;
        self.put_program_headers(&mut file)?;
        file.extend_from_slice(&self.loaded)?;
        file.extend_from_slice(&self.symbols)?;
        file.extend_from_slice(&self.names)?;
        self.put_section_headers(&mut file)?;
        Ok(file)
    }
}
