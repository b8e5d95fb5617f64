// Accounts of small images, by hand from what claims, padding, foreign ranges and strays are.
use asm_syntax::name::Name;
use coverage::account::Account;
use coverage::claims::{Claim, Claims};
use coverage::sweep::CoverFault;
use elf_view::{ElfView, LoadedSegments};
use layout_file::layout::Layout;
use layout_file::read_layout;
use link_model::owner::Owner;
use std::alloc::{AllocError, Global};
use std::test::Fail;
use test_images::layouts::layout_of;
use test_images::lines::image_of;
use word_ops::range::Range;

// Two areas of code beside each other, one of code that ends within a word, one of constants, one of data, and two foreign ranges
// beside each other.
static LAYOUT: &str = "area code 10010000 10010100
area code 10010100 10010110
area code 10010200 10010206
area const 10018000 10018100
area data 10020000 10020100
foreign 10030000 10030010
foreign 10030010 10030018
";

// The claims, as `NAME LO HI` of functions, `NAME OFFSET LO HI` of tables and `LO HI` of variables, with the segments; and what is
// told: the claim that meets one before it, the lowest stray address and its byte, or the account: functions and their bytes, tables
// and theirs, variables and theirs, and the bytes that are padding, foreign and loaded, and the spans.
static ROWS: [(&str, &str, &str); 29] = [
    ("", "", "0 0 0 0 0 0 0 0 0"),
    (
        "f 10010000 10010008",
        "segment 10010000 5 8 38600007 4e800020",
        "1 8 0 0 0 0 0 0 8, 10010000 10010008 f",
    ),
    // Two tables of one function beside it, and a variable, added from the highest down.
    (
        "10020000 10020004;f 4 1001000c 10010010;f 0 10010008 1001000c;f 10010000 10010008",
        "segment 10020000 6 4 00000005\nsegment 10010000 5 10 38600007 4e800020 10010000 10010004",
        "1 8 2 8 1 4 0 0 20, 10010000 10010008 f, 10010008 1001000c f 0, 1001000c 10010010 f 4, 10020000 10020004 x",
    ),
    // Zeros and nops behind code.
    (
        "f 10010000 10010008",
        "segment 10010000 5 14 38600007 4e800020 60000000 00000000 60000000",
        "1 8 0 0 0 0 12 0 20, 10010000 10010008 f, 10010008 10010014 padding",
    ),
    ("", "segment 10018000 4 4 60000000", "stray 10018000 60"),
    (
        "",
        "segment 10010002 5 6 60000000 0000",
        "stray 10010002 60",
    ),
    ("", "segment 10010000 5 4 60000001", "stray 10010000 60"),
    ("", "segment 10010000 5 3 600000", "stray 10010000 60"),
    ("", "segment 10010204 5 4 60000000", "stray 10010204 60"),
    (
        "",
        "segment 10010200 5 6 60000000 0000",
        "0 0 0 0 0 0 6 0 6, 10010200 10010206 padding",
    ),
    (
        "",
        "segment 10010100 5 4 60000000",
        "0 0 0 0 0 0 4 0 4, 10010100 10010104 padding",
    ),
    (
        "f 10010003 10010004",
        "segment 10010000 5 4 60000000",
        "stray 10010000 60",
    ),
    (
        "f 10010000 10010001",
        "segment 10010000 5 4 60000000",
        "1 1 0 0 0 0 3 0 4, 10010000 10010001 f, 10010001 10010004 padding",
    ),
    // A nop whose bytes are in two segments.
    (
        "",
        "segment 10010002 5 2\nsegment 10010000 5 2 6000",
        "0 0 0 0 0 0 4 0 4, 10010000 10010004 padding",
    ),
    // Zero fill of variables, of an area, and behind an area.
    (
        "10018000 10018004;10018004 1001800c",
        "segment 10018000 4 c 00000005",
        "0 0 0 0 2 12 0 0 12, 10018000 10018004 x, 10018004 1001800c x",
    ),
    (
        "10018000 10018004",
        "segment 10018000 4 c 00000005",
        "0 0 0 0 1 4 8 0 12, 10018000 10018004 x, 10018004 1001800c padding",
    ),
    ("", "segment 100180fe 4 4", "stray 10018100 00"),
    ("", "segment 10040000 6 4", "stray 10040000 00"),
    // Foreign bytes of any value, over two ranges, behind them, and with a claim among them.
    (
        "",
        "segment 10030000 5 18 7fe00008",
        "0 0 0 0 0 0 0 24 24, 10030000 10030018 foreign",
    ),
    ("", "segment 10030014 5 8 0102030405", "stray 10030018 05"),
    (
        "10030004 10030008",
        "segment 10030000 6 18 01",
        "0 0 0 0 1 4 0 20 24, 10030000 10030004 foreign, 10030004 10030008 x, 10030008 10030018 foreign",
    ),
    // Runs: over a gap two, over segments and areas one; a claim over two segments is one.
    (
        "",
        "segment 10018000 4 4\nsegment 10018008 4 4",
        "0 0 0 0 0 0 8 0 8, 10018000 10018004 padding, 10018008 1001800c padding",
    ),
    (
        "",
        "segment 10010104 5 4\nsegment 100100fc 5 8",
        "0 0 0 0 0 0 12 0 12, 100100fc 10010108 padding",
    ),
    (
        "f 10010000 10010008",
        "segment 10010000 5 4 38600007\nsegment 10010004 5 4 4e800020",
        "1 8 0 0 0 0 0 0 8, 10010000 10010008 f",
    ),
    // A claim without bytes is counted and has no span.
    (
        "10020002 10020002",
        "segment 10020000 6 4",
        "0 0 0 0 1 0 4 0 4, 10020000 10020004 padding",
    ),
    // The lowest of two strays, a stray between claims, and one at the end of all addresses.
    (
        "",
        "segment 10040000 6 4\nsegment 10018000 4 4 00000001",
        "stray 10018003 01",
    ),
    (
        "f 10010000 10010004;f 10010008 1001000c",
        "segment 10010000 5 c 4e800020 4e800020 4e800020",
        "stray 10010004 4e",
    ),
    ("", "segment ffffffff 4 1 07", "stray ffffffff 07"),
    (
        "f 10010000 10010008;f 10010004 1001000c",
        "segment 10010000 5 c 4e800020 4e800020 4e800020",
        "meets 1",
    ),
];

fn rows() -> &'static [(&'static str, &'static str, &'static str)] {
    &ROWS
}

fn name(alloc: Global, text: &str) -> Option<Name> {
    Name::from_bytes(alloc, text.as_bytes()).ok()
}

fn address(word: &str) -> Option<u64> {
    u64::from_str_radix(word, 16).ok()
}

/// The words of a claim but for its range.
fn owner(alloc: Global, words: &[&str]) -> Option<Owner> {
    let unit = name(alloc, "a.c")?;
    match words {
        [f] => Some(Owner::Function(unit, name(alloc, *f)?)),
        [f, offset] => {
            let offset = u32::try_from(address(*offset)?).ok()?;
            Some(Owner::Table(unit, name(alloc, *f)?, offset))
        }
        _ => Some(Owner::Variable(unit, name(alloc, "x")?)),
    }
}

fn add_claim(alloc: Global, claims: &mut Claims, text: &str) -> Option<()> {
    let mut words = Vec::new(alloc);
    for word in text.split_whitespace() {
        words.push(word).ok()?;
    }
    let [before @ .., lo, hi] = words.as_slice() else {
        return Some(());
    };
    let range = Range::new(address(*lo)?, address(*hi)?)?;
    claims.add(range, owner(alloc, before)?).ok()
}

fn claims_of(alloc: Global, text: &str) -> Option<Claims> {
    let mut claims = Claims::new(alloc);
    for claim in text.split(';') {
        add_claim(alloc, &mut claims, claim)?;
    }
    Some(claims)
}

fn told_owner(alloc: Global, owner: &Owner) -> Result<String, AllocError> {
    match owner {
        Owner::Function(_, name) | Owner::Variable(_, name) => String::from_str(alloc, name.text()),
        Owner::Table(_, name, offset) => format!(in alloc; "{} {offset}", name.text()),
        Owner::Padding => String::from_str(alloc, "padding"),
        Owner::Foreign => String::from_str(alloc, "foreign"),
    }
}

fn told_span(alloc: Global, span: &Claim) -> Result<String, AllocError> {
    let owner = told_owner(alloc, &span.owner)?;
    format!(in alloc; ", {:08x} {:08x} {owner}", span.range.lo, span.range.hi)
}

fn told_account(alloc: Global, a: &Account) -> Result<String, AllocError> {
    let mut text = format!(in alloc;
        "{} {} {} {} {} {} {} {} {}",
        a.functions,
        a.function_bytes,
        a.tables,
        a.table_bytes,
        a.variables,
        a.variable_bytes,
        a.padding,
        a.foreign,
        a.loaded
    )?;
    for span in a.spans.items() {
        let one = told_span(alloc, span)?;
        text.push_str(&one)?;
    }
    Ok(text)
}

/// What is told of claims in the image of some segments.
fn answer(alloc: Global, layout: &Layout, claims: &str, segments: &str) -> Option<String> {
    let text = format!(in alloc; "entry 0\n{segments}").ok()?;
    let file = image_of(alloc, &text)?;
    let view = ElfView::read(&file).ok()?;
    let loaded = LoadedSegments::read(alloc, &view).ok()?;
    let mut claims = claims_of(alloc, claims)?;
    if let Some(place) = claims.settle() {
        return format!(in alloc; "meets {place}").ok();
    }
    match claims.account(alloc, &loaded, layout) {
        Ok(account) => told_account(alloc, &account).ok(),
        Err(CoverFault::Stray(a, byte)) => format!(in alloc; "stray {a:08x} {byte:02x}").ok(),
        Err(CoverFault::Memory) => None,
    }
}

#[test]
fn accounts(rt: HostRuntime) -> Result<(), Fail> {
    let alloc = rt.alloc();
    let text = layout_of(alloc, LAYOUT).ok_or("the text of a layout")?;
    let layout = read_layout(alloc, text.as_bytes()).ok().ok_or("a layout")?;
    for (claims, segments, want) in rows() {
        let answer = answer(alloc, &layout, *claims, *segments).ok_or("a row")?;
        assert_eq!(rt; answer.as_str(), *want, "{claims} in {segments}");
    }
    Ok(())
}
