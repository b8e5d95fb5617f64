// Whole functions in small images: where they stand, their words, and their tables.
ghost use Rattle.std.specs.Prelude.{◌≡◌};
ghost use Rattle.std.specs.List.{list_all};
ghost use Rattle.asm_shapes.specs.Units.{table_fits};

use crate::test_lines::{instruction, layout, told};
use asm_shapes::IndexedCode;
use asm_syntax::instr::Instr;
use asm_syntax::name::Name;
use elf_view::{ElfView, LoadedSegments};
use expansions::function::{CodeFault, Placed, match_function};
use layout_file::layout::Layout;
use limits::{MOST_INSTRUCTIONS, MOST_LABELS};
use name_addresses::NameAddresses;
use std::alloc::{AllocError, Global};
use std::test::Fail;
use test_images::lines::image_of;

/// The address of all symbols.
#[derive(Drop)]
struct Symbol(u32);

impl NameAddresses for Symbol {
    ghost address = { λ symbol _. symbol.0 };

    fn address_of(&self, _name: &Name) -> u32 {
        self.0
    }
}

fn table_fits(instr: &Instr) -> bool
    ensures { result ≡ table_fits instr.now }
{
    match instr {
        Instr::Btbl(_, labels) => {
            let count = labels.items().len();
            1 <= count && count <= MOST_LABELS as usize
        }
        _ => true,
    }
}

fn tables_fit(code: &[Instr]) -> bool
    ensures { result ≡ list_all table_fits code.now }
{
    code.iter().all(|instr| table_fits(instr))
}

/// The code, its address, the segments, and what is told: the range, and each table with the offset of its jump; or the rule, the
/// offset, the item, and what is wanted and found.
type Row = (&'static str, u32, &'static str, &'static str);

static PLACES: [Row; 12] = [
    (
        "imm 3 7; blr",
        0x1001_0000,
        "segment 10010000 5 8 38600007 4e800020",
        "10010000 10010008",
    ),
    (
        "imm 3 7; blr",
        0x1001_0ff8,
        "segment 10010000 5 1000\nsegment 10011000 5 4",
        "opcode 0 0 38600007 00000000",
    ),
    (
        "imm 3 7; blr",
        0x1001_0002,
        "segment 10010002 5 8 38600007 4e800020",
        "place 0 1 00000000 10010002",
    ),
    (
        "imm 3 7; blr",
        0x1001_8000,
        "segment 10018000 5 8 38600007 4e800020",
        "place 0 2 00000000 10018000",
    ),
    (
        "imm 3 7; blr",
        0x1001_0ffc,
        "segment 10010ffc 5 8 38600007 4e800020",
        "place 0 2 00000000 10010ffc",
    ),
    (
        "imm 3 7; blr",
        0x1001_0000,
        "segment 10010000 5 7 38600007 4e8000",
        "place 7 3 00000000 10010000",
    ),
    (
        "imm 3 7; blr",
        0x1001_0000,
        "segment 10010000 6 8 38600007 4e800020",
        "place 0 3 00000000 10010000",
    ),
    (
        "imm 3 7; blr",
        0x1001_0000,
        "segment 10010000 5 4 38600007\nsegment 10010004 4 4 4e800020",
        "place 4 3 00000000 10010000",
    ),
    (
        "imm 3 7; blr",
        0x1001_0000,
        "segment 10010006 1 2 0020\nsegment 10010000 5 3 386000\nsegment 10010003 7 3 074e80",
        "10010000 10010008",
    ),
    (
        "imm 3 7; blr",
        0x1001_0000,
        "segment 10010000 5 8 38600008 4e800420",
        "field 0 0 38600007 38600008",
    ),
    (
        "imm 3 7; blr",
        0x1001_0000,
        "segment 10010000 5 8 38600007 4e800420",
        "opcode 4 0 4e800020 4e800420",
    ),
    (
        "label 1; cfi; blr; annot; label 2",
        0x1001_0000,
        "segment 10010000 5 4 4e800020",
        "10010000 10010004",
    ),
];

static BRANCHES: [Row; 9] = [
    (
        "bt 2 1; imm 3 1; label 1; blr",
        0x1001_0000,
        "segment 10010000 5 c 41820008 38600001 4e800020",
        "10010000 1001000c",
    ),
    (
        "bt 2 1; imm 3 1; label 1; blr",
        0x1001_0000,
        "segment 10010000 5 10 40820008 48000008 38600001 4e800020",
        "10010000 10010010",
    ),
    (
        "bt 2 1; imm 3 1; label 1; blr",
        0x1001_0000,
        "segment 10010000 5 c 60000000 38600001 4e800020",
        "opcode 0 0 41820008 60000000",
    ),
    (
        "label 1; bf 2 2; b 1; label 2; blr",
        0x1001_0000,
        "segment 10010000 5 c 40820008 4bfffffc 4e800020",
        "10010000 1001000c",
    ),
    (
        "label 1; bf 2 2; b 1; label 2; blr",
        0x1001_0000,
        "segment 10010000 5 10 41820008 48000008 4bfffff8 4e800020",
        "10010000 10010010",
    ),
    (
        "label 1; bf 2 2; b 1; label 2; blr",
        0x1001_0000,
        "segment 10010000 5 10 41820008 48000008 4bfffffc 4e800020",
        "branch 8 0 10010000 10010004",
    ),
    (
        "label 1; bf 2 2; b 1; label 2; blr",
        0x1001_0000,
        "segment 10010000 5 10 41820008 4800000c 4bfffffc 4e800020",
        "branch 4 0 1001000c 10010010",
    ),
    (
        "bl; blr",
        0x1001_0000,
        "segment 10010000 5 8 48000101 4e800020",
        "10010000 10010008",
    ),
    (
        "bl; blr",
        0x1001_0000,
        "segment 10010000 5 8 48000105 4e800020",
        "branch 0 0 10010100 10010104",
    ),
];

// A jump by a table to three places, of which the first two have labels on both sides of it.
static JUMP: &str = "label 1; imm 3 1; btbl 3 1 2 3; label 2; blr; label 3; blr";

static TABLES: [(&str, &str); 13] = [
    (
        "segment 10010000 5 2c 38600001 546c103a 3d8c1001 818c0020 7d8903a6 4e800420 4e800020 4e800020 10010000 10010018 1001001c",
        "10010000 10010020, 4 10010020 1001002c",
    ),
    (
        "segment 10010000 5 20 38600001 546c103a 3d8c1002 818c8000 7d8903a6 4e800420 4e800020 4e800020\nsegment 10018000 4 c 10010000 10010018 1001001c",
        "10010000 10010020, 4 10018000 1001800c",
    ),
    (
        "segment 10010000 5 2c 38600001 546c103a 3d8c1001 818c0020 7d8903a6 4e800420 4e800020 4e800020 10010004 10010018 1001001c",
        "table-word 4 0 10010000 10010004",
    ),
    (
        "segment 10010000 5 2c 38600001 546c103a 3d8c1001 818c0020 7d8903a6 4e800420 4e800020 4e800020 10010000 1001001c 1001001c",
        "table-word 4 1 10010018 1001001c",
    ),
    (
        "segment 10010000 5 2c 38600001 546c103a 3d8c1001 818c0020 7d8903a6 4e800420 4e800020 4e800020 10010000 10010018 10010018",
        "table-word 4 2 1001001c 10010018",
    ),
    (
        "segment 10010000 5 2e 38600001 546c103a 3d8c1001 818c0022 7d8903a6 4e800420 4e800020 4e800020 00001001 00001001 00181001 001c",
        "table-place 4 0 00000000 10010022",
    ),
    (
        "segment 10010000 5 2b 38600001 546c103a 3d8c1001 818c0020 7d8903a6 4e800420 4e800020 4e800020 10010000 10010018 100100",
        "table-place 4 0 00000000 10010020",
    ),
    (
        "segment 10010000 5 20 38600001 546c103a 3d8c1002 818c0000 7d8903a6 4e800420 4e800020 4e800020\nsegment 10020000 6 c 10010000 10010018 1001001c",
        "table-place 4 0 00000000 10020000",
    ),
    (
        "segment 10010000 5 20 38600001 546c103a 3d8c1001 818c0ff8 7d8903a6 4e800420 4e800020 4e800020\nsegment 10010ff8 5 c 10010000 10010018 1001001c",
        "table-place 4 0 00000000 10010ff8",
    ),
    // Two faults: the first by the order of instructions, and of an instruction its words before its table.
    (
        "segment 10010000 5 2c 38600001 546c103a 3d8c1001 818c0020 7d8903a6 4e800420 4e800420 4e800020 10010000 10010018 10010018",
        "table-word 4 2 1001001c 10010018",
    ),
    (
        "segment 10010000 5 2c 38600001 546c103a 3d8c1001 818c0022 7d8903a6 4e800421 4e800020 4e800020 10010000 10010018 10010018",
        "opcode 20 0 4e800420 4e800421",
    ),
    (
        "segment 10010000 5 2c 38600001 546c103a 3d8c1001 818c0022 7d8903a6 4e800420 4e800420 4e800020 10010000 10010018 10010018",
        "table-place 4 0 00000000 10010022",
    ),
    (
        "segment 10010000 5 2c 38600001 546c103a 3d8c1001 818c0020 7d8903a6 4e800420 4e800420 4e800020 10010000 10010018 1001001c",
        "opcode 24 0 4e800020 4e800420",
    ),
];

fn rows() -> (&'static [Row], &'static [Row]) {
    (&PLACES, &BRANCHES)
}

fn tables() -> &'static [(&'static str, &'static str)] {
    &TABLES
}

fn code_of(alloc: Global, text: &str) -> Option<Vec<Instr>> {
    let mut code = Vec::new(alloc);
    for line in text.split(';') {
        code.push(instruction(alloc, line)?).ok()?;
    }
    Some(code)
}

fn told_placed(alloc: Global, placed: &Placed) -> Result<String, AllocError> {
    let range = placed.range;
    let mut text = format!(in alloc; "{:08x} {:08x}", range.lo, range.hi)?;
    for table in placed.tables.items() {
        let (lo, hi) = (table.range.lo, table.range.hi);
        let one = format!(in alloc; ", {} {lo:08x} {hi:08x}", table.offset)?;
        text.push_str(&one)?;
    }
    Ok(text)
}

/// What is told of a code at an address in the image of some segments.
fn answer(alloc: Global, layout: &Layout, code: &str, base: u32, segments: &str) -> Option<String> {
    let text = format!(in alloc; "entry 0\n{segments}").ok()?;
    let file = image_of(alloc, &text)?;
    let view = ElfView::read(&file).ok()?;
    let segments = LoadedSegments::read(alloc, &view).ok()?;
    let code = code_of(alloc, code)?;
    if code.len() > MOST_INSTRUCTIONS as usize || !tables_fit(&code) {
        return None;
    }
    let code = IndexedCode::new(alloc, &code).ok()?;
    match match_function(alloc, &segments, layout, &Symbol(0x1001_0100), base, &code) {
        Ok(placed) => told_placed(alloc, &placed).ok(),
        Err(CodeFault::No(spot)) => told(alloc, &spot).ok(),
        Err(CodeFault::Memory) => None,
    }
}

#[test]
fn functions(rt: HostRuntime) -> Result<(), Fail> {
    let alloc = rt.alloc();
    let layout = layout(alloc).ok_or("a layout")?;
    let (places, branches) = rows();
    for (code, base, segments, want) in places.iter().chain(branches) {
        let answer = answer(alloc, &layout, *code, *base, *segments).ok_or("a row")?;
        assert_eq!(rt; answer.as_str(), *want, "{segments}");
    }
    Ok(())
}

#[test]
fn functions_with_tables(rt: HostRuntime) -> Result<(), Fail> {
    let alloc = rt.alloc();
    let layout = layout(alloc).ok_or("a layout")?;
    for (segments, want) in tables() {
        let answer = answer(alloc, &layout, JUMP, 0x1001_0000, *segments).ok_or("a row")?;
        assert_eq!(rt; answer.as_str(), *want, "{segments}");
    }
    Ok(())
}
