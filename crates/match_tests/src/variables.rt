//! Variables against an image with read-only data, and with data of which the last part is not writable.
use crate::test_lines::layout_with;
use asm_syntax::name::Name;
use asm_syntax::unit::{ByteList, Init, InitList, Variable};
use data_match::fault::DataFault;
use data_match::matching::match_variable;
use elf_view::{ElfView, LoadedSegments};
use layout_file::layout::Layout;
use name_addresses::NameAddresses;
use std::alloc::{AllocError, Global};
use std::process::Abort;
use std::test::Fail;
use test_images::lines::image_of;
use word_ops::range::Range;

static LAYOUT: &str = "area code 10010000 10011000
area const 10018000 10018800
area const 10018800 10019000
area data 10020000 10020018
";

// Twelve bytes are read-only at 10018000; at 10020000 are four and a zero fill up to 10020010, writable, and behind these sixteen more of
// zero fill, read-only.
static IMAGE: &str = "entry 10010000
segment 10018000 4 c 01234567 89abcdef 10020002
segment 10020000 6 10 deadbeef
segment 10020010 4 10
";

#[derive(Clone, Copy)]
enum Item {
    Int8(u8),
    Int16(u16),
    Int32(u32),
    Bytes(&'static [u8]),
    Space(u32),
    /// The address of the one symbol, and an offset.
    Addr(i32),
}

#[derive(Drop)]
struct Symbol(u32);

impl NameAddresses for Symbol {
    ghost address = { λ symbol _. symbol.0 };

    fn address_of(&self, _name: &Name) -> u32 {
        self.0
    }
}

fn name(alloc: Global) -> Result<Name, Fail> {
    Ok(Name::from_bytes(alloc, b"x").ok().ok_or("a name")?)
}

fn init(alloc: Global, item: Item) -> Result<Init, Fail> {
    match item {
        Item::Int8(n) => Ok(Init::Int8(n)),
        Item::Int16(n) => Ok(Init::Int16(n)),
        Item::Int32(n) => Ok(Init::Int32(n)),
        Item::Bytes(bytes) => Ok(Init::Bytes(ByteList::from_vec(bytes.to_vec(alloc)?))),
        Item::Space(n) => Ok(Init::Space(n)),
        Item::Addr(offset) => Ok(Init::Addr(name(alloc)?, offset)),
    }
}

fn variable(alloc: Global, writable: bool, items: &[Item]) -> Result<Variable, Fail> {
    let mut list = InitList::new(alloc);
    for item in items {
        list.push(init(alloc, *item)?)?;
    }
    Ok(Variable {
        name: name(alloc)?,
        is_static: false,
        writable,
        align: 1,
        init: list,
    })
}

fn told(alloc: Global, answer: Result<Range, DataFault>) -> Result<String, AllocError> {
    match answer {
        Ok(range) => format!(in alloc; "{:x} {:x}", range.lo, range.hi),
        Err(DataFault::Bytes(offset, wanted, Some(found))) => {
            format!(in alloc; "bytes {offset} {wanted:x} {found:x}")
        }
        Err(DataFault::Bytes(offset, wanted, None)) => format!(in alloc;
            "bytes {offset} {wanted:x} none"
        ),
        Err(DataFault::Align) => String::from_str(alloc, "align"),
        Err(DataFault::Area) => String::from_str(alloc, "area"),
        Err(DataFault::Flags) => String::from_str(alloc, "flags"),
    }
}

/// The items, whether it is writable, its alignment and address, and what is told.
type Row = (&'static [Item], bool, u8, u32, &'static str);

static ROWS: [Row; 21] = [
    (
        &[
            Item::Int8(1),
            Item::Int8(0x23),
            Item::Int16(0x4567),
            Item::Int32(0x89ab_cdef),
        ],
        false,
        8,
        0x1001_8000,
        "10018000 10018008",
    ),
    (
        &[Item::Bytes(&[0x45, 0x67, 0x89])],
        false,
        2,
        0x1001_8002,
        "10018002 10018005",
    ),
    (&[Item::Addr(2)], false, 4, 0x1001_8008, "10018008 1001800c"),
    (&[Item::Addr(-2)], false, 4, 0x1001_8008, "bytes 1 1 2"),
    (
        &[Item::Bytes(&[1]), Item::Int16(0x2346)],
        false,
        1,
        0x1001_8000,
        "bytes 2 46 45",
    ),
    (
        &[Item::Int32(0xdead_beef), Item::Space(8)],
        true,
        16,
        0x1002_0000,
        "10020000 1002000c",
    ),
    (&[Item::Space(5)], true, 1, 0x1002_0003, "bytes 0 0 ef"),
    (
        &[Item::Int8(0xef), Item::Space(29)],
        true,
        1,
        0x1002_0003,
        "bytes 29 0 none",
    ),
    (
        &[Item::Space(1), Item::Int8(5)],
        true,
        1,
        0x1002_0004,
        "bytes 1 5 0",
    ),
    (&[Item::Int8(7)], true, 1, 0x1003_0000, "bytes 0 7 none"),
    (&[Item::Int8(9)], true, 4, 0x1001_8001, "bytes 0 9 23"),
    (&[Item::Space(4)], true, 4, 0x1002_0006, "align"),
    (&[Item::Int8(1)], true, 4, 0x1001_8000, "area"),
    (
        &[Item::Space(4)],
        false,
        4,
        0x1002_0014,
        "10020014 10020018",
    ),
    (&[Item::Space(8)], false, 4, 0x1002_0014, "area"),
    (&[Item::Space(4)], true, 2, 0x1002_000e, "flags"),
    (&[Item::Space(4)], true, 4, 0x1002_0010, "flags"),
    (
        &[Item::Space(4)],
        false,
        2,
        0x1002_000e,
        "1002000e 10020012",
    ),
    (&[], true, 4, 0x1002_0018, "10020018 10020018"),
    (&[Item::Space(0)], true, 4, 0x1002_001c, "area"),
    (&[], false, 1, 0x1001_0004, "area"),
];

fn rows() -> &'static [Row] {
    &ROWS
}

fn answer(
    alloc: Global,
    row: Row,
    segments: &LoadedSegments,
    layout: &Layout,
) -> Result<String, Fail> {
    let (items, writable, alignment, address, _) = row;
    let variable = variable(alloc, writable, items)?;
    let size = asm_syntax::unit::variable_size(variable.init.items()).ok_or("a size")?;
    if alignment == 0 || size > 1000 {
        return Err(Fail::new("a row"));
    }
    let symbol = Symbol(0x1002_0000);
    Ok(told(
        alloc,
        match_variable(&variable, alignment, address, &symbol, segments, layout),
    )?)
}

fn assert_told(
    rt: &impl Abort,
    alloc: Global,
    segments: &LoadedSegments,
    layout: &Layout,
) -> Result<(), Fail> {
    for row in rows() {
        let text = answer(alloc, *row, segments, layout)?;
        assert_eq!(rt; text.as_str(), row.4);
    }
    Ok(())
}

#[test]
fn variables(rt: HostRuntime) -> Result<(), Fail> {
    let file = image_of(rt.alloc(), IMAGE).ok_or("an image")?;
    let view = ElfView::read(&file).ok().ok_or("an image")?;
    let segments = LoadedSegments::read(rt.alloc(), &view)?;
    let layout = layout_with(rt.alloc(), LAYOUT).ok_or("a layout")?;
    assert_told(&rt, rt.alloc(), &segments, &layout)
}
