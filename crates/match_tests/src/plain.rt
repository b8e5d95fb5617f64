//! Words laid out by the formats of the Power ISA 2.07, Book I, and words that differ from them in one place.

use crate::test_lines::{layout_with, reg};
use asm_syntax::instr::{Const, Instr, Jump, Plain};
use asm_syntax::listed::Listed;
use asm_syntax::name::Name;
use asm_syntax::operations::{AluImmOp, LoadOp};
use asm_syntax::reg::Reg;
use asm_syntax::rule::Rule;
use layout_file::layout::Layout;
use reloc_match::diff::Diff;
use reloc_match::matching::{agrees, length, match_plain};
use std::alloc::Global;
use std::test::Fail;

/// An instruction that may name `x`, at an offset.
#[derive(Clone, Copy, Debug, Drop)]
enum Form {
    AddiSeven,
    AddisHa(i32),
    LwzLo(i32),
    LwzSda,
    Bl,
    Bs,
    B,
    Bdnz,
    Blr,
    Bctr,
    Bctrl,
    Trap,
}

fn plain(alloc: Global, form: Form) -> Result<Plain, Fail> {
    let x = Name::from_bytes(alloc, b"x").ok().ok_or("a name")?;
    Ok(match form {
        Form::AddiSeven => Plain::AluImm(AluImmOp::Addi, reg(3)?, reg(0)?, Const::Int(7)),
        Form::AddisHa(o) => Plain::AluImm(AluImmOp::Addis, reg(4)?, reg(0)?, Const::Ha(x, o)),
        Form::LwzLo(o) => Plain::Load(LoadOp::Lwz, reg(3)?, Const::Lo(x, o), reg(4)?),
        Form::LwzSda => Plain::Load(LoadOp::Lwz, reg(3)?, Const::Sda(x, 0), reg(0)?),
        Form::Bl => Plain::Jump(Jump::Bl(x)),
        Form::Bs => Plain::Jump(Jump::Bs(x)),
        Form::B => Plain::Jump(Jump::B(1)),
        Form::Bdnz => Plain::Jump(Jump::Bdnz(1)),
        Form::Blr => Plain::Jump(Jump::Blr),
        Form::Bctr => Plain::Jump(Jump::Bctr),
        Form::Bctrl => Plain::Jump(Jump::Bctrl),
        Form::Trap => Plain::Jump(Jump::Trap),
    })
}

const VARIABLE: u32 = 0x1001_8000;

const EXTERNAL: u32 = 0x1002_0000;

const LABEL: u32 = 0x1001_000c;

/// The rule that fails, with what is wanted and found.
type Wrong = Option<(Rule, u32, u32)>;

/// An instruction, its word at 10010014, the address of what it names, and what is wrong.
type Row = (Form, u32, u32, Wrong);

static ROWS: [Row; 28] = [
    (Form::AddiSeven, 0x3860_0007, VARIABLE, None),
    (
        Form::AddiSeven,
        0x3860_0008,
        VARIABLE,
        Some((Rule::Field, 0x3860_0007, 0x3860_0008)),
    ),
    (
        Form::AddiSeven,
        0x3880_0007,
        VARIABLE,
        Some((Rule::Field, 0x3860_0007, 0x3880_0007)),
    ),
    (
        Form::AddiSeven,
        0x2060_0007,
        VARIABLE,
        Some((Rule::Opcode, 0x3860_0007, 0x2060_0007)),
    ),
    (
        Form::AddiSeven,
        0,
        VARIABLE,
        Some((Rule::Opcode, 0x3860_0007, 0)),
    ),
    (Form::AddisHa(0), 0x3c80_1002, VARIABLE, None),
    (
        Form::AddisHa(0),
        0x3c80_1001,
        VARIABLE,
        Some((Rule::Half, 0x3c80_1002, 0x3c80_1001)),
    ),
    (Form::AddisHa(-1), 0x3c80_1001, VARIABLE, None),
    (Form::LwzLo(0), 0x8064_8000, VARIABLE, None),
    (Form::LwzLo(4), 0x8064_8004, VARIABLE, None),
    (Form::LwzLo(-1), 0x8064_7fff, VARIABLE, None),
    (
        Form::LwzLo(0),
        0x8064_8004,
        VARIABLE,
        Some((Rule::Half, 0x8064_8000, 0x8064_8004)),
    ),
    (
        Form::LwzLo(0),
        0x8065_8000,
        VARIABLE,
        Some((Rule::Field, 0x8064_8000, 0x8065_8000)),
    ),
    (
        Form::LwzLo(0),
        0x9064_8000,
        VARIABLE,
        Some((Rule::Opcode, 0x8064_8000, 0x9064_8000)),
    ),
    (Form::Bl, 0x4800_ffed, EXTERNAL, None),
    (
        Form::Bl,
        0x4800_fff1,
        EXTERNAL,
        Some((Rule::Branch, EXTERNAL, 0x1002_0004)),
    ),
    (
        Form::Bl,
        0x4800_ffec,
        EXTERNAL,
        Some((Rule::Opcode, 0x4800_ffed, 0x4800_ffec)),
    ),
    (Form::Bs, 0x4800_ffec, EXTERNAL, None),
    (Form::B, 0x4bff_fff8, LABEL, None),
    (
        Form::B,
        0x4bff_fffc,
        LABEL,
        Some((Rule::Branch, LABEL, 0x1001_0010)),
    ),
    (Form::Bdnz, 0x4200_fff8, LABEL, None),
    (
        Form::Bdnz,
        0x4200_fff4,
        LABEL,
        Some((Rule::Branch, LABEL, 0x1001_0008)),
    ),
    (
        Form::Bdnz,
        0x4182_fff8,
        LABEL,
        Some((Rule::Opcode, 0x4200_fff8, 0x4182_fff8)),
    ),
    (Form::Blr, 0x4e80_0020, 0, None),
    (
        Form::Blr,
        0x4e80_0420,
        0,
        Some((Rule::Opcode, 0x4e80_0020, 0x4e80_0420)),
    ),
    (Form::Bctr, 0x4e80_0420, 0, None),
    (Form::Bctrl, 0x4e80_0421, 0, None),
    (Form::Trap, 0x7fe0_0008, 0, None),
];

fn rows() -> &'static [Row] {
    &ROWS
}

/// None where it names small data.
fn judged(plain: &Plain, word: u32, target: u32) -> Option<Result<(), Diff>> {
    if plain.has_small_data() {
        return None;
    }
    Some(match_plain(plain, word, 0x1001_0014, target))
}

fn difference(alloc: Global, form: Form, word: u32, target: u32) -> Result<Wrong, Fail> {
    let plain = plain(alloc, form)?;
    let judged = judged(&plain, word, target).ok_or("no small data")?;
    Ok(judged.err().map(|d| (d.rule, d.wanted, d.found)))
}

#[test]
fn a_word_and_its_differences(rt: HostRuntime) -> Result<(), Fail> {
    for (form, word, target, wrong) in rows() {
        let found = difference(rt.alloc(), *form, *word, *target)?;
        assert_eq!(rt; found, *wrong, "{form:?}");
    }
    Ok(())
}

/// An instruction, its word at 10010008, an address, and whether the word agrees with it.
static USES: [(Form, u32, u32, bool); 13] = [
    (Form::LwzLo(0), 0x8064_8000, 0x1001_8000, true),
    (Form::LwzLo(0), 0x90a5_8000, 0x1001_8000, true),
    (Form::LwzLo(0), 0x8064_8000, 0x1002_8000, true),
    (Form::LwzLo(0), 0x8064_8000, 0x1001_8004, false),
    (Form::AddisHa(0), 0x3c80_1002, 0x1002_7fff, true),
    (Form::AddisHa(0), 0x3c80_1002, 0x1001_7fff, false),
    (Form::LwzSda, 0x806d_8010, 0x1003_0010, true),
    (Form::LwzSda, 0x8062_8010, 0x1004_0010, true),
    (Form::LwzSda, 0x8060_1010, 0x0000_1010, true),
    (Form::LwzSda, 0x806d_8010, 0x1004_0010, false),
    (Form::LwzSda, 0x8065_8010, 0x1003_0010, false),
    (Form::Bl, 0x4800_0011, 0x1001_0018, true),
    (Form::Bl, 0x4800_0015, 0x1001_0018, false),
];

fn uses() -> &'static [(Form, u32, u32, bool)] {
    &USES
}

fn does_agree(
    alloc: Global,
    layout: &Layout,
    form: Form,
    word: u32,
    target: u32,
) -> Result<bool, Fail> {
    let plain = plain(alloc, form)?;
    Ok(agrees(&plain, word, 0x1001_0008, target, layout))
}

#[test]
fn a_word_agrees_with_an_address(rt: HostRuntime) -> Result<(), Fail> {
    let layout = layout_with(rt.alloc(), "area code 10010000 10011000").ok_or("a layout")?;
    for (form, word, target, want) in uses() {
        let found = does_agree(rt.alloc(), &layout, *form, *word, *target)?;
        assert_eq!(rt; found, *want, "{form:?}");
    }
    Ok(())
}

fn lengths(alloc: Global) -> Result<Vec<(Instr, u32, u32)>, Fail> {
    let r3 = reg(3)?;
    Ok(vec![in alloc;
        (Instr::Plain(Plain::Jump(Jump::Blr)), 0, 1),
        (Instr::AllocFrame(32768), 0, 1),
        (Instr::AllocFrame(32776), 0, 3),
        (Instr::FreeFrame(32776), 0, 1),
        (Instr::Imm(r3, 0x7fff), 0, 1),
        (Instr::Imm(r3, 0x8000), 0, 2),
        (Instr::Imm(r3, 0xffff_8000), 0, 1),
        (Instr::Imm(r3, 0xffff_7fff), 0, 2),
        (Instr::Imm(r3, 0x1_0000), 0, 1),
        (Instr::Imm(r3, 0x1234_5678), 0, 2),
        (Instr::Bt(2, 1), 0x4182_0008, 1),
        (Instr::Bt(2, 1), 0x4082_0008, 2),
        (Instr::Bt(2, 1), 0x4200_0008, 1),
        (Instr::Bf(2, 1), 0x4082_0008, 1),
        (Instr::Bf(2, 1), 0x4182_0008, 2),
        (Instr::Btbl(r3, Listed::new(alloc)), 0, 5),
        (Instr::MfcrBit(r3, 2), 0, 2),
        (Instr::Label(1), 0, 0),
        (Instr::Cfi, 0, 0),
        (Instr::Annot, 0, 0),
    ]?)
}

#[test]
fn how_many_words(rt: HostRuntime) -> Result<(), Fail> {
    for (instr, first, want) in &lengths(rt.alloc())? {
        assert_eq!(rt; length(instr, *first), *want);
    }
    Ok(())
}
