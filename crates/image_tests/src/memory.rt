// Code of two words, data of 3 bytes in the file and 8 in memory, and a stack.
use effect_model::Form;
use elf_view::ElfView;
use flat_mem::memory::{FaultKind, FlatMem};
use std::alloc::Global;
use std::test::Fail;
use test_images::lines::image_of;
use word_ops::range::Range;

// The byte behind the three of the data is in the file, and belongs to another segment.
static IMAGE: &str = "entry 10010000
segment 10010000 5 8 38600007 4e800020
segment 10018000 6 8 0a0b0c
segment 10028000 4 1 0d
";

// The memory of the file, with a stack of 16 bytes a5 from an address on.
fn memory(alloc: Global, file: &[u8], from: u32) -> Result<FlatMem, Fail> {
    let view = ElfView::read(file).ok().ok_or("an image")?;
    let lo = u64::from(from);
    let bytes = [0xa5; 16];
    match Range::new(lo, lo + 16) {
        Some(stack) if 0 < stack.lo && stack.hi == stack.lo + 16 && stack.lo < stack.hi => {
            Ok(FlatMem::build(alloc, &view, &stack, &bytes)?)
        }
        _ => Err("a stack".into()),
    }
}

static LOADS: [(Form, u32, Option<u32>); 11] = [
    (Form::Word, 0x1001_0000, Some(0x3860_0007)),
    (Form::Half, 0x1001_0002, Some(7)),
    (Form::Byte, 0x1001_8002, Some(12)),
    (Form::Word, 0x1001_8000, Some(0x0a0b_0c00)),
    (Form::Word, 0x1001_8004, Some(0)),
    (Form::Word, 0x1001_8005, None),
    (Form::SignedHalf, 0x2000_0000, Some(0xffff_a5a5)),
    (Form::ReversedWord, 0x1001_0000, Some(0x0700_6038)),
    (Form::ReversedHalf, 0x1001_8001, Some(0x0c0b)),
    (Form::Word, 0x2000_000d, None),
    (Form::Half, 0xffff_ffff, None),
];

fn load_rows() -> &'static [(Form, u32, Option<u32>)] {
    &LOADS
}

#[test]
fn loads(rt: HostRuntime) -> Result<(), Fail> {
    let file = image_of(rt.alloc(), IMAGE).ok_or("an image")?;
    let mem = memory(rt.alloc(), &file, 0x2000_0000)?;
    for (form, at, value) in load_rows() {
        assert_eq!(rt; mem.load(*form, *at), *value, "at {at}");
    }
    Ok(())
}

// What is stored to, the answer, and a word that is read behind it.
type Store = (Form, u32, Result<(), FaultKind>, u32, u32);

static STORES: [Store; 9] = [
    (Form::Word, 0x1001_8001, Ok(()), 0x1001_8000, 0x0a01_02f3),
    (
        Form::ReversedWord,
        0x1001_8000,
        Ok(()),
        0x1001_8000,
        0xf4f3_0201,
    ),
    (Form::Half, 0x1001_8006, Ok(()), 0x1001_8004, 0xf3f4),
    (
        Form::SignedHalf,
        0x1001_8004,
        Ok(()),
        0x1001_8004,
        0xf3f4_0000,
    ),
    (
        Form::ReversedHalf,
        0x1001_8004,
        Ok(()),
        0x1001_8004,
        0xf4f3_0000,
    ),
    (Form::Byte, 0x2000_000f, Ok(()), 0x2000_000c, 0xa5a5_a5f4),
    (
        Form::Byte,
        0x1001_0000,
        Err(FaultKind::ReadOnly),
        0x1001_0000,
        0x3860_0007,
    ),
    (
        Form::Half,
        0x2000_000f,
        Err(FaultKind::Unmapped),
        0x2000_000c,
        0xa5a5_a5a5,
    ),
    (
        Form::Word,
        0x1001_0006,
        Err(FaultKind::Unmapped),
        0x1001_0004,
        0x4e80_0020,
    ),
];

fn store_rows() -> &'static [Store] {
    &STORES
}

#[test]
fn stores(rt: HostRuntime) -> Result<(), Fail> {
    let file = image_of(rt.alloc(), IMAGE).ok_or("an image")?;
    for (form, at, answer, place, word) in store_rows() {
        let mut mem = memory(rt.alloc(), &file, 0x2000_0000)?;
        assert_eq!(rt; mem.store(*form, *at, 0x0102_f3f4), *answer, "at {at}");
        assert_eq!(rt; mem.load(Form::Word, *place), Some(*word), "at {at}");
    }
    Ok(())
}

// Where the stack begins, and the word that is fetched at an address.
type Fetch = (u32, u32, Result<u32, FaultKind>);

// The stack may cover the second word of the code: it wins there.
static FETCHES: [Fetch; 8] = [
    (0x2000_0000, 0x1001_0000, Ok(0x3860_0007)),
    (0x2000_0000, 0x1001_0004, Ok(0x4e80_0020)),
    (0x2000_0000, 0x1001_0002, Err(FaultKind::NotCode)),
    (0x2000_0000, 0x1001_0005, Err(FaultKind::Unmapped)),
    (0x2000_0000, 0x1001_8000, Err(FaultKind::NotCode)),
    (0x2000_0000, 0x2000_0000, Err(FaultKind::NotCode)),
    (0x1001_0004, 0x1001_0000, Ok(0x3860_0007)),
    (0x1001_0004, 0x1001_0004, Err(FaultKind::NotCode)),
];

fn fetch_rows() -> &'static [Fetch] {
    &FETCHES
}

#[test]
fn fetches(rt: HostRuntime) -> Result<(), Fail> {
    let file = image_of(rt.alloc(), IMAGE).ok_or("an image")?;
    for (stack, at, word) in fetch_rows() {
        let mem = memory(rt.alloc(), &file, *stack)?;
        assert_eq!(rt; mem.fetch(*at), *word, "at {at}");
    }
    Ok(())
}
