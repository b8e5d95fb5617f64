// Indexes over small executables, and over one with many symbols. The fields are those of the gABI's tables.
use elf_view::ElfView;
use std::alloc::{AllocError, Global};
use std::test::Fail;
use symbol_index::index::SymIndex;

fn put_words(file: &mut Vec<u8>, words: &[u32]) -> Result<(), AllocError> {
    for word in words {
        for byte in word.to_be_bytes() {
            file.push(byte)?;
        }
    }
    Ok(())
}

fn size(n: usize) -> u32 {
    u32::try_from(n).unwrap_or(0)
}

// An executable of two words. A symbol is the place of its name in the texts, and its value.
fn executable(alloc: Global, symbols: &[(u32, u32)], texts: &[u8]) -> Result<Vec<u8>, AllocError> {
    let table = size(symbols.len()).wrapping_mul(16);
    let sections = table.wrapping_add(size(texts.len())).wrapping_add(92);
    let mut file = Vec::new(alloc);
    put_words(
        &mut file,
        &[
            0x7f45_4c46,
            0x0102_0100,
            0,
            0,
            0x0002_0014,
            1,
            0x1001_0000,
            52,
            sections,
        ],
    )?;
    put_words(&mut file, &[0, 0x0034_0020, 0x0001_0028, 0x0003_0000])?;
    put_words(
        &mut file,
        &[
            1,
            84,
            0x1001_0000,
            0x1001_0000,
            8,
            8,
            5,
            4,
            0x3860_0007,
            0x4e80_0020,
        ],
    )?;
    for (name, value) in symbols {
        put_words(&mut file, &[*name, *value, 0, 0x1200_fff1])?;
    }
    for byte in texts {
        file.push(*byte)?;
    }
    put_words(&mut file, &[0, 0, 0, 0, 0, 0, 0, 0, 0, 0])?;
    put_words(&mut file, &[0, 2, 0, 0, 92, table, 2, 1, 4, 16])?;
    put_words(
        &mut file,
        &[
            0,
            3,
            0,
            0,
            table.wrapping_add(92),
            size(texts.len()),
            0,
            0,
            1,
            0,
        ],
    )?;
    Ok(file)
}

// The place of a name, and the number of the symbol there.
fn found(index: &SymIndex, name: &[u8]) -> Option<(u32, u32)> {
    if name.len() > 255 {
        return None;
    }
    let place = index.place_of(name)?;
    if place >= index.places() {
        return None;
    }
    Some((place, index.number(place)))
}

fn find_in(alloc: Global, file: &[u8], name: &[u8]) -> Result<Option<(u32, u32)>, AllocError> {
    match ElfView::read(file) {
        Ok(view) => {
            let index = SymIndex::build(alloc, &view)?;
            Ok(found(&index, name))
        }
        Err(_) => Ok(Some((u32::MAX, u32::MAX))),
    }
}

// `main` stands at 1 and at 10, `ain` at 2, `a` at 6, `b` at 8, and nothing at 0.
const TEXTS: [u8; 16] = *b"\0main\0a\0b\0main\0\0";

// Where the names stand in the texts, the name that is looked up, and its first place with the symbol there.
static ROWS: [(&[u32], &str, Option<(u32, u32)>); 11] = [
    (&[], "main", None),
    (&[0, 1], "main", Some((1, 1))),
    (&[0, 1], "", Some((0, 0))),
    (&[0, 1], "mai", None),
    (&[1, 6, 8], "a", Some((0, 1))),
    (&[1, 6, 8], "b", Some((1, 2))),
    (&[1, 6, 8], "main", Some((2, 0))),
    (&[1, 6, 8], "c", None),
    (&[8, 10, 6, 1, 2], "main", Some((3, 1))),
    (&[8, 10, 6, 1, 2], "ain", Some((1, 4))),
    (&[10, 1, 10, 1, 10], "main", Some((0, 0))),
];

fn rows() -> &'static [(&'static [u32], &'static str, Option<(u32, u32)>)] {
    &ROWS
}

fn named(alloc: Global, names: &[u32]) -> Result<Vec<u8>, AllocError> {
    let mut symbols = Vec::new(alloc);
    for at in names {
        symbols.push((*at, 0x1001_0000))?;
    }
    executable(alloc, &symbols, &TEXTS)
}

#[test]
fn finds_the_first_place_of_a_name(rt: HostRuntime) -> Result<(), Fail> {
    for (names, name, answer) in rows() {
        let file = named(rt.alloc(), names)?;
        let place = find_in(rt.alloc(), &file, name.as_bytes())?;
        assert_eq!(rt; place, *answer, "{name} among {names:?}");
    }
    Ok(())
}

// 800,000 symbols with one name, and 65,536 with names of their own.
fn many_symbols(alloc: Global) -> Result<Vec<u8>, AllocError> {
    let mut texts = Vec::new(alloc);
    let mut symbols = Vec::new(alloc);
    texts.push(b's')?;
    texts.push(0)?;
    for _ in 0..800_000 {
        symbols.push((0, 0x1000_0000))?;
    }
    for k in 0..65_536u32 {
        symbols.push((size(texts.len()), 0x1000_0000 + 4 * k))?;
        let name = format!(in alloc; "f{k}")?;
        for byte in name.as_bytes() {
            texts.push(*byte)?;
        }
        texts.push(0)?;
    }
    executable(alloc, &symbols, &texts)
}

fn first_wrong(alloc: Global, index: &SymIndex) -> Result<Option<u32>, AllocError> {
    for k in 0..65_536u32 {
        let name = format!(in alloc; "f{k}")?;
        match found(index, name.as_bytes()) {
            Some((_, number)) if number == 800_000 + k => {}
            _ => return Ok(Some(k)),
        }
    }
    Ok(None)
}

// Where the name of the many stands, and the first name of its own that is not found.
type Answers = (Option<(u32, u32)>, Option<u32>);

fn answers_in(alloc: Global, file: &[u8]) -> Result<Option<Answers>, AllocError> {
    match ElfView::read(file) {
        Ok(view) => {
            let index = SymIndex::build(alloc, &view)?;
            Ok(Some((found(&index, b"s"), first_wrong(alloc, &index)?)))
        }
        Err(_) => Ok(None),
    }
}

#[test]
fn finds_names_among_many(rt: HostRuntime) -> Result<(), Fail> {
    let file = many_symbols(rt.alloc())?;
    let answers = answers_in(rt.alloc(), &file)?;
    assert_eq!(rt; answers, Some((Some((65_536, 0)), None)));
    Ok(())
}
