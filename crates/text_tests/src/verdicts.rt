//! Texts and statuses of verdicts on `check layout.json image.elf a.json b.json`.

use asm_syntax::listed::Listed;
use asm_syntax::name::Name;
use asm_syntax::path::{Path, Step};
use asm_syntax::rule::Rule;
use asm_syntax::shape::ShapeError;
use coverage::account::Account;
use coverage::claims::Claim;
use dump_reader::DumpError;
use image_model::error::ElfError;
use judge_model::refusal::Refusal;
use layout_file::error::LayoutError;
use link_model::fault::Fault;
use link_model::link_error::LinkError;
use link_model::owner::Owner;
use report_text::text;
use report_text::verdict::Verdict;
use std::alloc::{AllocError, Global};
use std::process::Abort;
use std::test::Fail;
use word_ops::range::Range;

/// The files by their places among the words.
const LAYOUT: usize = 1;

const IMAGE: usize = 2;

const UNIT_A: usize = 3;

const UNIT_B: usize = 4;

/// A step of a path: a key, or an index where the key is empty.
type Key = (&'static str, u32);

const CODE: &[Key] = &[
    ("functions", 0),
    ("", 0),
    ("code", 0),
    ("", 65_535),
    ("", 3),
];

const FUNCTION: &[Key] = &[("functions", 0), ("", 12)];

const INIT: &[Key] = &[("variables", 0), ("", 1), ("init", 0)];

const SIGNATURE: &[Key] = &[("externals", 0), ("", 0), ("sig", 0), ("args", 0)];

fn name(alloc: Global, text: &str) -> Result<Name, Fail> {
    Ok(Name::from_bytes(alloc, text.as_bytes())?)
}

fn path(alloc: Global, keys: &[Key]) -> Result<Path, Fail> {
    let mut steps = Vec::new(alloc);
    for (key, index) in keys {
        let step = match *key {
            "" => Step::Index(*index),
            key => Step::Key(name(alloc, key)?),
        };
        steps.push(step)?;
    }
    Ok(Listed::from_vec(steps))
}

/// The words of the command.
fn words(alloc: Global) -> Result<Vec<String>, AllocError> {
    let mut words = Vec::new(alloc);
    for word in ["check", "layout.json", "image.elf", "a.json", "b.json"] {
        words.push(word.to_string(alloc)?)?;
    }
    Ok(words)
}

fn assert_printed(
    rt: &impl Abort,
    alloc: Global,
    verdict: Verdict,
    status: u8,
    wanted: &str,
) -> Result<(), Fail> {
    assert_eq!(rt; verdict.status(), status, "of {wanted}");
    let words = words(alloc)?;
    let printed = text(alloc, &words, verdict)?;
    assert_eq!(rt; printed.as_slice(), wanted.as_bytes(), "of {wanted}");
    Ok(())
}

/// A refusal has status 3.
fn assert_refused(
    rt: &impl Abort,
    alloc: Global,
    place: usize,
    refusal: Refusal,
    wanted: &str,
) -> Result<(), Fail> {
    assert_printed(rt, alloc, Verdict::Refused(place, refusal), 3, wanted)
}

const USAGE: &str = "usage: valex check LAYOUT IMAGE UNIT...\n\
\x20      valex run LAYOUT IMAGE REPLIES STEPS UNIT...\n\
\x20      valex show IMAGE ADDRESS COUNT\n\
\x20      valex make SEED COUNT\n\
\x20      valex upgrade UNIT\n";

/// What ends a command before any grammar, the file's place, a limit, the status, and the text.
static EARLY: [(Early, usize, u32, u8, &str); 6] = [
    (Early::Usage, 0, 0, 2, USAGE),
    (Early::Unread, LAYOUT, 0, 4, "read fault layout.json\n"),
    (Early::Unread, UNIT_B, 0, 4, "read fault b.json\n"),
    (
        Early::TooLong,
        IMAGE,
        33_554_432,
        3,
        "refused image.elf store 1 too-long 33554432\n",
    ),
    (
        Early::TooLong,
        UNIT_A,
        8_388_608,
        3,
        "refused a.json store 1 too-long 8388608\n",
    ),
    (
        Early::PastTotal,
        UNIT_B,
        0,
        3,
        "refused b.json store 2 total 67108864\n",
    ),
];

#[derive(Clone, Copy, Drop)]
enum Early {
    Usage,
    Unread,
    TooLong,
    PastTotal,
}

fn early_rows() -> &'static [(Early, usize, u32, u8, &'static str)] {
    &EARLY
}

fn early_verdict(early: Early, place: usize, limit: u32) -> Verdict {
    match early {
        Early::Usage => Verdict::Usage,
        Early::Unread => Verdict::Unread(place),
        Early::TooLong => Verdict::TooLong(place, limit),
        Early::PastTotal => Verdict::PastTotal(place),
    }
}

#[test]
fn verdicts_before_any_grammar(rt: HostRuntime) -> Result<(), Fail> {
    for (early, place, limit, status, wanted) in early_rows() {
        let verdict = early_verdict(*early, *place, *limit);
        assert_printed(&rt, rt.alloc(), verdict, *status, wanted)?;
    }
    Ok(())
}

#[test]
fn texts_that_are_done(rt: HostRuntime) -> Result<(), Fail> {
    for text in ["", "{}\n"] {
        let bytes = text.as_bytes().to_vec(rt.alloc())?;
        let verdict = Verdict::Done(Listed::from_vec(bytes));
        assert_printed(&rt, rt.alloc(), verdict, 0, text)?;
    }
    Ok(())
}

static ELF_LINES: [(ElfError, &str); 14] = [
    (ElfError::Short(51), "refused image.elf elf 1 short 51\n"),
    (ElfError::Ident(4), "refused image.elf elf 2 ident 4\n"),
    (ElfError::Kind(16), "refused image.elf elf 3 kind 16\n"),
    (
        ElfError::Machine(18),
        "refused image.elf elf 4 machine 18\n",
    ),
    (
        ElfError::EntrySize(208),
        "refused image.elf elf 5 entry-size 208\n",
    ),
    (
        ElfError::Dynamic(52),
        "refused image.elf elf 6 dynamic 52\n",
    ),
    (
        ElfError::SegRange(52),
        "refused image.elf elf 7 seg-range 52\n",
    ),
    (
        ElfError::SegOverlap(284),
        "refused image.elf elf 8 seg-overlap 284\n",
    ),
    (
        ElfError::NoSymtab(32),
        "refused image.elf elf 9 no-symtab 32\n",
    ),
    (
        ElfError::TwoSymtabs(212),
        "refused image.elf elf 10 two-symtabs 212\n",
    ),
    (
        ElfError::SymRange(172),
        "refused image.elf elf 11 sym-range 172\n",
    ),
    (
        ElfError::NameEnd(0),
        "refused image.elf elf 12 name-end 0\n",
    ),
    (
        ElfError::Limit(44, 256),
        "refused image.elf elf 13 limit 44 256\n",
    ),
    (
        ElfError::Limit(0, 4_294_967_295),
        "refused image.elf elf 13 limit 0 4294967295\n",
    ),
];

fn elf_lines() -> &'static [(ElfError, &'static str)] {
    &ELF_LINES
}

static LAYOUT_LINES: [(u8, &[Key], u32, u32, &str); 11] = [
    (1, &[], 0, 0, "refused layout.json layout 1 not-json .\n"),
    (
        2,
        &[("r13", 0)],
        0,
        0,
        "refused layout.json layout 2 missing r13\n",
    ),
    (3, &[], 0, 0, "refused layout.json layout 3 wrong-kind .\n"),
    (
        4,
        &[("stack", 0)],
        0,
        0,
        "refused layout.json layout 4 out-of-range stack\n",
    ),
    (
        5,
        &[("areas", 0), ("", 2), ("kind", 0)],
        0,
        0,
        "refused layout.json layout 5 unknown-word areas/2/kind\n",
    ),
    (
        6,
        &[("version", 0)],
        0,
        0,
        "refused layout.json layout 6 version version\n",
    ),
    (
        7,
        &[("areas", 0), ("", 0), ("range", 0)],
        0,
        0,
        "refused layout.json layout 7 range-order areas/0/range\n",
    ),
    (
        8,
        &[],
        1,
        2,
        "refused layout.json layout 8 range-meets 1 2\n",
    ),
    (
        8,
        &[],
        0,
        2049,
        "refused layout.json layout 8 range-meets 0 2049\n",
    ),
    (
        9,
        &[("stack", 0)],
        0,
        0,
        "refused layout.json layout 9 unaligned stack\n",
    ),
    (
        11,
        &[("pins", 0)],
        0,
        65_536,
        "refused layout.json layout 11 limit pins 65536\n",
    ),
];

fn layout_lines() -> &'static [(u8, &'static [Key], u32, u32, &'static str)] {
    &LAYOUT_LINES
}

fn layout_error(number: u8, path: Path, first: u32, second: u32) -> LayoutError {
    match number {
        1 => LayoutError::NotJson,
        2 => LayoutError::Missing(path),
        3 => LayoutError::WrongKind(path),
        4 => LayoutError::OutOfRange(path),
        5 => LayoutError::UnknownWord(path),
        6 => LayoutError::Version(path),
        7 => LayoutError::RangeOrder(path),
        8 => LayoutError::RangeMeets(first, second),
        9 => LayoutError::Unaligned(path),
        _ => LayoutError::Limit(path, second),
    }
}

static DUMP_LINES: [(u8, &[Key], u32, &str); 17] = [
    (1, &[], 0, "refused b.json dump 1 not-json .\n"),
    (
        2,
        &[("externals", 0)],
        0,
        "refused b.json dump 2 missing externals\n",
    ),
    (3, &[], 0, "refused b.json dump 3 wrong-kind .\n"),
    (
        4,
        CODE,
        0,
        "refused b.json dump 4 out-of-range functions/0/code/65535/3\n",
    ),
    (
        5,
        &[("valex", 0)],
        0,
        "refused b.json dump 5 unknown-word valex\n",
    ),
    (
        6,
        &[("version", 0)],
        0,
        "refused b.json dump 6 version version\n",
    ),
    (
        7,
        CODE,
        1,
        "refused b.json dump 7 shape functions/0/code/65535/3 1\n",
    ),
    (
        7,
        CODE,
        2,
        "refused b.json dump 7 shape functions/0/code/65535/3 2\n",
    ),
    (
        7,
        CODE,
        3,
        "refused b.json dump 7 shape functions/0/code/65535/3 3\n",
    ),
    (
        7,
        CODE,
        4,
        "refused b.json dump 7 shape functions/0/code/65535/3 4\n",
    ),
    (
        7,
        FUNCTION,
        5,
        "refused b.json dump 7 shape functions/12 5\n",
    ),
    (
        7,
        CODE,
        6,
        "refused b.json dump 7 shape functions/0/code/65535/3 6\n",
    ),
    (
        7,
        SIGNATURE,
        7,
        "refused b.json dump 7 shape externals/0/sig/args 7\n",
    ),
    (
        7,
        SIGNATURE,
        8,
        "refused b.json dump 7 shape externals/0/sig/args 8\n",
    ),
    (
        8,
        CODE,
        0,
        "refused b.json dump 8 refused functions/0/code/65535/3\n",
    ),
    (
        9,
        INIT,
        16_777_216,
        "refused b.json dump 9 limit variables/1/init 16777216\n",
    ),
    (
        9,
        &[("functions", 0)],
        65_536,
        "refused b.json dump 9 limit functions 65536\n",
    ),
];

fn dump_lines() -> &'static [(u8, &'static [Key], u32, &'static str)] {
    &DUMP_LINES
}

/// The instruction is another number than the shape's, so that neither stands for the other.
fn shape_error(number: u32) -> ShapeError {
    match number {
        1 => ShapeError::WritesReserved(99),
        2 => ShapeError::NoLabel(99),
        3 => ShapeError::TwoLabels(99),
        4 => ShapeError::BadFrame(99),
        5 => ShapeError::Empty(0),
        6 => ShapeError::BadRange(99),
        7 => ShapeError::TooManyArgs(0),
        _ => ShapeError::BadBuffer(3),
    }
}

fn dump_error(number: u8, path: Path, detail: u32) -> DumpError {
    match number {
        1 => DumpError::NotJson,
        2 => DumpError::Missing(path),
        3 => DumpError::WrongKind(path),
        4 => DumpError::OutOfRange(path),
        5 => DumpError::UnknownWord(path),
        6 => DumpError::Version(path),
        7 => DumpError::Shape(path, shape_error(detail)),
        8 => DumpError::Refused(path),
        _ => DumpError::Limit(path, detail),
    }
}

static LINK_LINES: [(u8, &str); 5] = [
    (1, "refused b.json link 1 unit-twice b.c\n"),
    (2, "refused b.json link 2 defined-twice x\n"),
    (3, "refused b.json link 3 undeclared x\n"),
    (4, "refused b.json link 4 sig-differs x\n"),
    (7, "refused b.json link 7 too-big x\n"),
];

fn link_lines() -> &'static [(u8, &'static str)] {
    &LINK_LINES
}

fn link_error(number: u8, name: Name) -> LinkError {
    match number {
        1 => LinkError::UnitTwice(1),
        2 => LinkError::DefinedTwice(1, name),
        3 => LinkError::Undeclared(1, name),
        4 => LinkError::SigDiffers(1, name),
        _ => LinkError::TooBig(1, name),
    }
}

#[test]
fn refusals_of_images(rt: HostRuntime) -> Result<(), Fail> {
    for (error, wanted) in elf_lines() {
        assert_refused(&rt, rt.alloc(), IMAGE, Refusal::Image(*error), wanted)?;
    }
    Ok(())
}

#[test]
fn refusals_of_layouts(rt: HostRuntime) -> Result<(), Fail> {
    for (number, keys, first, second, wanted) in layout_lines() {
        let error = layout_error(*number, path(rt.alloc(), keys)?, *first, *second);
        assert_refused(&rt, rt.alloc(), LAYOUT, Refusal::Layout(error), wanted)?;
    }
    Ok(())
}

#[test]
fn refusals_of_dumps(rt: HostRuntime) -> Result<(), Fail> {
    for (number, keys, detail, wanted) in dump_lines() {
        let error = dump_error(*number, path(rt.alloc(), keys)?, *detail);
        assert_refused(&rt, rt.alloc(), UNIT_B, Refusal::Unit(1, error), wanted)?;
    }
    Ok(())
}

#[test]
fn refusals_of_links(rt: HostRuntime) -> Result<(), Fail> {
    for (number, wanted) in link_lines() {
        let error = link_error(*number, name(rt.alloc(), "x")?);
        let refusal = Refusal::Link(1, name(rt.alloc(), "b.c")?, error);
        assert_refused(&rt, rt.alloc(), UNIT_B, refusal, wanted)?;
    }
    Ok(())
}

#[test]
fn an_entry_is_refused(rt: HostRuntime) -> Result<(), Fail> {
    let refusal = Refusal::Entry(name(rt.alloc(), "main")?);
    let wanted = "refused layout.json link 5 no-entry main\n";
    assert_refused(&rt, rt.alloc(), LAYOUT, refusal, wanted)
}

#[test]
fn replies_are_refused(rt: HostRuntime) -> Result<(), Fail> {
    let path = path(rt.alloc(), &[("replies", 0)])?;
    let refusal = Refusal::Replies(DumpError::Limit(path, 65_536));
    let wanted = "refused a.json replies 9 limit replies 65536\n";
    assert_refused(&rt, rt.alloc(), UNIT_A, refusal, wanted)
}

/// Of what is named `f` in the unit `a.c`.
#[derive(Clone, Copy)]
enum Who {
    Function,
    Table(u32),
    Variable,
    Padding,
    Foreign,
}

fn owner(alloc: Global, who: Who) -> Result<Owner, Fail> {
    let unit = name(alloc, "a.c")?;
    let name = name(alloc, "f")?;
    Ok(match who {
        Who::Function => Owner::Function(unit, name),
        Who::Table(offset) => Owner::Table(unit, name, offset),
        Who::Variable => Owner::Variable(unit, name),
        Who::Padding => Owner::Padding,
        Who::Foreign => Owner::Foreign,
    })
}

/// The name of what is named in the text, its offset, the item, the words, and with whom.
type Row = (Rule, [&'static str; 2], [u32; 4], Option<Who>, &'static str);

static FAULT_TEXTS: [Row; 20] = [
    (
        Rule::Entry,
        ["-", "-"],
        [0x10010002, 0, 0x0, 0x10010002],
        None,
        "no\nrule 1 entry\nplace - - 10010002\nitem 0\nwanted 00000000\nfound 10010002\n",
    ),
    (
        Rule::NoSymbol,
        ["a.c", "f"],
        [0x0, 0, 0x1, 0x0],
        None,
        "no\nrule 2 no-symbol\nplace a.c f 00000000\nitem 0\nwanted 00000001\nfound 00000000\n",
    ),
    (
        Rule::NoneFits,
        ["b.c", "h"],
        [0x0, 0, 0x1, 0x0],
        None,
        "no\nrule 3 none-fits\nplace b.c h 00000000\nitem 0\nwanted 00000001\nfound 00000000\n",
    ),
    (
        Rule::SeveralFit,
        ["a.c", "__stringlit_1"],
        [0x0, 0, 0x1, 0x2],
        None,
        "no\nrule 4 several-fit\nplace a.c __stringlit_1 00000000\nitem 0\nwanted 00000001\nfound 00000002\n",
    ),
    (
        Rule::ExternalPlace,
        ["a.c", "putw"],
        [0x0, 2, 0x0, 0x10020100],
        None,
        "no\nrule 5 external-place\nplace a.c putw 00000000\nitem 2\nwanted 00000000\nfound 10020100\n",
    ),
    (
        Rule::Place,
        ["a.c", "main"],
        [0x0, 1, 0x0, 0xffffffff],
        None,
        "no\nrule 6 place\nplace a.c main 00000000\nitem 1\nwanted 00000000\nfound ffffffff\n",
    ),
    (
        Rule::Opcode,
        ["a.c", "main"],
        [0x0, 0, 0x38600007, 0x3c600007],
        None,
        "no\nrule 7 opcode\nplace a.c main 00000000\nitem 0\nwanted 38600007\nfound 3c600007\n",
    ),
    (
        Rule::Field,
        ["a.c", "main"],
        [0x8, 0, 0x40820008, 0x4082000c],
        None,
        "no\nrule 8 field\nplace a.c main 00000008\nitem 0\nwanted 40820008\nfound 4082000c\n",
    ),
    (
        Rule::Half,
        ["a.c", "main"],
        [0x0, 0, 0x3c801002, 0x3c801001],
        None,
        "no\nrule 9 half\nplace a.c main 00000000\nitem 0\nwanted 3c801002\nfound 3c801001\n",
    ),
    (
        Rule::Branch,
        ["a.c", "main"],
        [0x0, 0, 0x10010004, 0x10010008],
        None,
        "no\nrule 10 branch\nplace a.c main 00000000\nitem 0\nwanted 10010004\nfound 10010008\n",
    ),
    (
        Rule::Sda,
        ["a.c", "main"],
        [0x0, 3, 0xd, 0x2],
        None,
        "no\nrule 11 sda\nplace a.c main 00000000\nitem 3\nwanted 0000000d\nfound 00000002\n",
    ),
    (
        Rule::TablePlace,
        ["a.c", "main"],
        [0x4, 1, 0x0, 0x10010031],
        None,
        "no\nrule 12 table-place\nplace a.c main 00000004\nitem 1\nwanted 00000000\nfound 10010031\n",
    ),
    (
        Rule::TableWord,
        ["a.c", "main"],
        [0x4, 2, 0x10010028, 0x1001002c],
        None,
        "no\nrule 13 table-word\nplace a.c main 00000004\nitem 2\nwanted 10010028\nfound 1001002c\n",
    ),
    (
        Rule::DataBytes,
        ["a.c", "x"],
        [0x3, 0, 0x2a, 0x2b],
        None,
        "no\nrule 14 data-bytes\nplace a.c x 00000003\nitem 0\nwanted 0000002a\nfound 0000002b\n",
    ),
    (
        Rule::DataPlace,
        ["a.c", "x"],
        [0x0, 2, 0x0, 0xffffffff],
        None,
        "no\nrule 15 data-place\nplace a.c x 00000000\nitem 2\nwanted 00000000\nfound ffffffff\n",
    ),
    (
        Rule::Overlap,
        ["a.c", "f"],
        [0x10010000, 0, 0x0, 0x0],
        Some(Who::Function),
        "no\nrule 16 overlap\nplace a.c f 10010000\nitem 0\nwanted 00000000\nfound 00000000\nwith function a.c f\n",
    ),
    (
        Rule::Overlap,
        ["a.c", "f"],
        [0x10010000, 0, 0x0, 0x0],
        Some(Who::Table(0x24)),
        "no\nrule 16 overlap\nplace a.c f 10010000\nitem 0\nwanted 00000000\nfound 00000000\nwith table a.c f 00000024\n",
    ),
    (
        Rule::Overlap,
        ["a.c", "f"],
        [0x10010000, 0, 0x0, 0x0],
        Some(Who::Variable),
        "no\nrule 16 overlap\nplace a.c f 10010000\nitem 0\nwanted 00000000\nfound 00000000\nwith variable a.c f\n",
    ),
    (
        Rule::Stray,
        ["-", "-"],
        [0x1001800c, 0, 0x0, 0x60],
        None,
        "no\nrule 17 stray\nplace - - 1001800c\nitem 0\nwanted 00000000\nfound 00000060\n",
    ),
    (
        Rule::Stray,
        ["-", "-"],
        [0x0, 4294967295, 0xdeadbeef, 0xffffffff],
        None,
        "no\nrule 17 stray\nplace - - 00000000\nitem 4294967295\nwanted deadbeef\nfound ffffffff\n",
    ),
];

fn fault_texts() -> &'static [Row] {
    &FAULT_TEXTS
}

fn fault(alloc: Global, row: &Row) -> Result<Fault, Fail> {
    let (rule, names, numbers, who, _) = row;
    let other = match who {
        Some(who) => Some(owner(alloc, *who)?),
        None => None,
    };
    Ok(Fault {
        rule: *rule,
        unit: name(alloc, names[0])?,
        name: name(alloc, names[1])?,
        offset: numbers[0],
        item: numbers[1],
        wanted: numbers[2],
        found: numbers[3],
        other,
    })
}

#[test]
fn places_that_fail(rt: HostRuntime) -> Result<(), Fail> {
    for row in fault_texts() {
        let verdict = Verdict::No(fault(rt.alloc(), row)?);
        assert_printed(&rt, rt.alloc(), verdict, 1, row.4)?;
    }
    Ok(())
}

static SPANS: [(u64, u64, Who); 6] = [
    (0x1001_0000, 0x1001_0030, Who::Function),
    (0x1001_0030, 0x1001_003c, Who::Table(4)),
    (0x1001_003c, 0x1001_0040, Who::Padding),
    (0x1001_8000, 0x1001_8005, Who::Variable),
    (0x2000_0000, 0x3000_0000, Who::Foreign),
    (0xffff_ffe0, 0xffff_fff0, Who::Foreign),
];

fn spans_of(alloc: Global) -> Result<Vec<Claim>, Fail> {
    let mut spans = Vec::new(alloc);
    for (lo, hi, who) in &SPANS {
        let range = Range::new(*lo, *hi).ok_or("a range")?;
        let owner = owner(alloc, *who)?;
        spans.push(Claim { range, owner })?;
    }
    Ok(spans)
}

/// The numbers differ, so that none stands for another.
fn account(spans: Vec<Claim>) -> Account {
    Account {
        functions: 2,
        function_bytes: 48,
        tables: 3,
        table_bytes: 12,
        variables: 65_536,
        variable_bytes: 67_108_864,
        externals: 7,
        padding: 4,
        foreign: 268_435_472,
        loaded: 335_544_400,
        spans: Listed::from_vec(spans),
    }
}

const COUNTS: &str =
    "yes\nfunctions 2 bytes 48\ntables 3 bytes 12\nvariables 65536 bytes 67108864\nexternals 7\npadding 4\nforeign 268435472\nloaded 335544400\n";

const LISTED: &str =
    "10010000 10010030 function a.c f\n10010030 1001003c table a.c f 00000004\n1001003c 10010040 padding\n10018000 10018005 variable a.c f\n20000000 30000000 foreign\nffffffe0 fffffff0 foreign\n";

#[test]
fn an_account(rt: HostRuntime) -> Result<(), Fail> {
    let alloc = rt.alloc();
    let verdict = Verdict::Yes(account(Vec::new(alloc)));
    assert_printed(&rt, alloc, verdict, 0, COUNTS)?;
    let wanted = format!(in alloc; "{COUNTS}{LISTED}")?;
    let verdict = Verdict::Yes(account(spans_of(alloc)?));
    assert_printed(&rt, alloc, verdict, 0, &wanted)
}
