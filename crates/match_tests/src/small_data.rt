//! Small data about r13, r2 and 0, and words that reach something else.

use crate::test_lines::{layout_with, reg};
use asm_syntax::instr::{Const, Plain};
use asm_syntax::name::Name;
use asm_syntax::operations::{AluImmOp, LoadOp, StoreOp};
use asm_syntax::reg::Reg;
use asm_syntax::rule::Rule;
use layout_file::layout::Layout;
use sda_match::matching::match_sda;
use std::alloc::Global;
use std::test::Fail;

// An area of each register's kind. In the second layout r13 reaches the area of r2.
static LAYOUTS: [&str; 2] = [
    "area sda0 1000 2000
area sda13 10030000 10031000
area sda2 10040000 10041000",
    "bases 10040000 10048000
area sda2 10040000 10041000",
];

/// The lines, which proofs need not see.
fn layouts() -> &'static [&'static str] {
    &LAYOUTS
}

/// The constant's part of an instruction with r3.
#[derive(Clone, Copy, Drop)]
enum Form {
    Addi,
    Lwz,
    Stw,
}

fn instruction(alloc: Global, form: Form) -> Result<Plain, Fail> {
    let x = Name::from_bytes(alloc, b"x").ok().ok_or("a name")?;
    let c = Const::Sda(x, 0);
    Ok(match form {
        Form::Addi => Plain::AluImm(AluImmOp::Addi, reg(3)?, reg(0)?, c),
        Form::Lwz => Plain::Load(LoadOp::Lwz, reg(3)?, c, reg(0)?),
        Form::Stw => Plain::Store(StoreOp::Stw, reg(3)?, c, reg(0)?),
    })
}

/// The rule, the item, and what is wanted and found.
type Wrong = (Rule, u32, u32, u32);

/// The number of a layout, the instruction's form, its word, the symbol's address, and what is wrong.
type Case = (usize, Form, u32, u32, Option<Wrong>);

static CASES: [Case; 13] = [
    (0, Form::Lwz, 0x806d_8010, 0x1003_0010, None),
    (0, Form::Lwz, 0x8062_8010, 0x1004_0010, None),
    (0, Form::Lwz, 0x8060_1010, 0x0000_1010, None),
    (0, Form::Addi, 0x386d_8010, 0x1003_0010, None),
    (0, Form::Stw, 0x906d_8010, 0x1003_0010, None),
    (
        0,
        Form::Lwz,
        0x906d_8010,
        0x1003_0010,
        Some((Rule::Opcode, 0, 0x8060_0000, 0x906d_8010)),
    ),
    (
        0,
        Form::Lwz,
        0x808d_8010,
        0x1003_0010,
        Some((Rule::Field, 0, 0x806d_8010, 0x808d_8010)),
    ),
    (
        0,
        Form::Lwz,
        0x8065_8010,
        0x1003_0010,
        Some((Rule::Sda, 1, 13, 5)),
    ),
    (
        0,
        Form::Lwz,
        0x806d_8014,
        0x1003_0010,
        Some((Rule::Sda, 2, 0x1003_0010, 0x1003_0014)),
    ),
    (
        0,
        Form::Lwz,
        0x8062_8010,
        0x1003_0010,
        Some((Rule::Sda, 2, 0x1003_0010, 0x1004_0010)),
    ),
    (
        0,
        Form::Lwz,
        0x8060_0010,
        0x0000_0010,
        Some((Rule::Sda, 3, 0, 0xffff_ffff)),
    ),
    (
        0,
        Form::Lwz,
        0x806d_9000,
        0x1003_1000,
        Some((Rule::Sda, 3, 13, 0xffff_ffff)),
    ),
    (
        1,
        Form::Lwz,
        0x806d_0010,
        0x1004_0010,
        Some((Rule::Sda, 3, 13, 2)),
    ),
];

fn cases() -> &'static [Case] {
    &CASES
}

fn layout(alloc: Global, number: usize) -> Result<Layout, Fail> {
    let lines = layouts().get(number).ok_or("a layout's lines")?;
    Ok(layout_with(alloc, lines).ok_or("a layout")?)
}

fn judged(alloc: Global, case: &Case) -> Result<Option<Wrong>, Fail> {
    let (number, form, word, target, _) = case;
    let layout = layout(alloc, *number)?;
    let plain = instruction(alloc, *form)?;
    if !plain.has_small_data() {
        return Err("small data".into());
    }
    let answer = match_sda(&plain, *word, *target, &layout);
    Ok(answer.err().map(|d| (d.rule, d.item, d.wanted, d.found)))
}

#[test]
fn small_data_and_its_differences(rt: HostRuntime) -> Result<(), Fail> {
    for case in cases() {
        assert_eq!(rt; judged(rt.alloc(), case)?, case.4, "{}", case.2);
    }
    Ok(())
}
