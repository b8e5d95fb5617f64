//! What tests read from lines of text, and how they tell an answer.

use asm_syntax::instr::{Instr, Jump, Labels, Plain};
use asm_syntax::name::Name;
use asm_syntax::reg::Reg;
use code_model::spot::Spot;
use layout_file::layout::Layout;
use layout_file::read_layout;
use std::alloc::{AllocError, Global};
use std::str::SplitWhitespace;
use std::test::Fail;
use test_images::layouts::layout_of;

// Two areas of code beside each other, one of constants, one of data.
static LAYOUT: &str = "area code 10010000 10011000
area code 10011000 10012000
area const 10018000 10019000
area data 10020000 10021000
";

pub fn layout_with(alloc: Global, lines: &str) -> Option<Layout> {
    let text = layout_of(alloc, lines)?;
    read_layout(alloc, text.as_bytes()).ok()
}

pub fn layout(alloc: Global) -> Option<Layout> {
    layout_with(alloc, LAYOUT)
}

pub fn reg(n: u8) -> Result<Reg, Fail> {
    Ok(Reg::new(n).ok_or("a register")?)
}

/// Decimal digits, or `0x` and hexadecimal ones.
fn number(word: Option<&str>) -> Option<u32> {
    let word = word?;
    match word.strip_prefix("0x") {
        Some(digits) => u32::from_str_radix(digits, 16).ok(),
        None => u32::from_str_radix(word, 10).ok(),
    }
}

fn bit(word: Option<&str>) -> Option<u8> {
    u8::try_from(number(word)?).ok()
}

fn register(word: Option<&str>) -> Option<Reg> {
    Reg::new(bit(word)?)
}

fn labels(alloc: Global, words: SplitWhitespace) -> Option<Labels> {
    let mut labels = Labels::new(alloc);
    for word in words {
        labels.push(number(Some(word))?).ok()?;
    }
    Some(labels)
}

/// The symbol that all instructions name.
fn symbol(alloc: Global) -> Option<Name> {
    Name::from_bytes(alloc, b"x").ok()
}

/// A jump to a label, to the symbol, or back.
fn jump(alloc: Global, mnemonic: &str, label: Option<&str>) -> Option<Jump> {
    match mnemonic {
        "b" => Some(Jump::B(number(label)?)),
        "bl" => Some(Jump::Bl(symbol(alloc)?)),
        "blr" => Some(Jump::Blr),
        _ => None,
    }
}

/// A pseudo-instruction as in a dump, or a jump.
pub fn instruction(alloc: Global, line: &str) -> Option<Instr> {
    let mut words = line.split_whitespace();
    let mnemonic = words.next()?;
    match mnemonic {
        "allocframe" => Some(Instr::AllocFrame(number(words.next())?)),
        "freeframe" => Some(Instr::FreeFrame(number(words.next())?)),
        "imm" => Some(Instr::Imm(register(words.next())?, number(words.next())?)),
        "bt" => Some(Instr::Bt(bit(words.next())?, number(words.next())?)),
        "bf" => Some(Instr::Bf(bit(words.next())?, number(words.next())?)),
        "btbl" => Some(Instr::Btbl(register(words.next())?, labels(alloc, words)?)),
        "mfcrbit" => Some(Instr::MfcrBit(register(words.next())?, bit(words.next())?)),
        "label" => Some(Instr::Label(number(words.next())?)),
        "cfi" => Some(Instr::Cfi),
        "annot" => Some(Instr::Annot),
        _ => Some(Instr::Plain(Plain::Jump(jump(alloc, mnemonic, words.next())?))),
    }
}

/// `RULE OFFSET ITEM WANTED FOUND`, the last two in hexadecimal.
pub fn told(alloc: Global, spot: &Spot) -> Result<String, AllocError> {
    format!(in alloc;
        "{} {} {} {:08x} {:08x}",
        spot.rule.name(),
        spot.offset,
        spot.item,
        spot.wanted,
        spot.found
    )
}
