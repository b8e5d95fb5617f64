//! Expected values stand by the rules of the machine and by the Power ISA's meaning of each instruction on words.

use asm_mem::blocks::Blocks;
use asm_mem::value::Val;
use asm_syntax::instr::{Const, Plain};
use asm_syntax::name::Name;
use asm_syntax::operations::{
    Alu2Op, AluImmOp, AluOp, CmpImmOp, CmpOp, CrBitOp, Log2Op, LogImmOp, LogOp, MoveOp,
};
use asm_syntax::reg::Reg;
use asm_values::accesses::{load, store};
use asm_values::actions::action;
use asm_values::registers::Registers;
use effect_model::{Action, Form, Place};
use link_model::key::KeyKind;
use std::alloc::{AllocError, Global};
use std::test::Fail;

/// The key 0 is a function, 1 a variable and 2 an external.
const KINDS: [KeyKind; 3] = [
    KeyKind::Function(2),
    KeyKind::Variable(0),
    KeyKind::External(0),
];

/// An instruction that reads r3 and r4, and writes r5, the field 1 or the bit 5.
#[derive(Clone, Copy, Debug, Drop)]
enum Row {
    AluImm(AluImmOp, i32),
    LogImm(LogImmOp, u16),
    Alu(AluOp),
    Alu2(Alu2Op),
    Log(LogOp),
    /// Of r3 with itself.
    Same(LogOp),
    Log2(Log2Op),
    Cmp(CmpOp),
    CmpImm(CmpImmOp, i32),
    CrBit(CrBitOp, u8, u8),
    Move(MoveOp),
}

fn plain(row: Row, r3: Reg, r4: Reg, r5: Reg) -> Plain {
    match row {
        Row::AluImm(o, n) => Plain::AluImm(o, r5, r3, Const::Int(n)),
        Row::LogImm(o, n) => Plain::LogImm(o, r5, r3, n),
        Row::Alu(o) => Plain::Alu(o, r5, r3, r4),
        Row::Alu2(o) => Plain::Alu2(o, r5, r3),
        Row::Log(o) => Plain::Log(o, r5, r3, r4),
        Row::Same(o) => Plain::Log(o, r5, r3, r3),
        Row::Log2(o) => Plain::Log2(o, r5, r3),
        Row::Cmp(o) => Plain::Cmp(o, 1, r3, r4),
        Row::CmpImm(o, n) => Plain::CmpImm(o, 1, r3, n),
        Row::CrBit(o, a, b) => Plain::CrBit(o, 5, a, b),
        Row::Move(o) => Plain::Move(o, r5),
    }
}

/// Does an instruction, and tells whether it is defined.
fn does(registers: &mut Registers, blocks: &Blocks, p: &Plain, key: u32) -> bool {
    let what = match p {
        Plain::Cmp(_, f, _, _) | Plain::CmpImm(_, f, _, _) if *f >= 8 => return false,
        _ => action(p, key),
    };
    match what {
        Action::Work(effects) => {
            registers.work(&KINDS, blocks, &effects);
            true
        }
        Action::Divide(effect) => registers.divide(&KINDS, blocks, &effect),
        _ => false,
    }
}

/// r3 and r4 hold these values, LR an instruction, CA and the bit 6 the word 1, and nothing else a value. None where the
/// instruction is undefined.
fn after(blocks: &Blocks, row: Row, u: Val, v: Val) -> Option<Registers> {
    let mut registers = Registers::new();
    registers.put(Place::Gpr(3), u);
    registers.put(Place::Gpr(4), v);
    registers.put(Place::Lr, Val::Code(2, 7));
    registers.put(Place::Ca, Val::Int(1));
    registers.put(Place::Bit(6), Val::Int(1));
    let p = plain(row, Reg::new(3)?, Reg::new(4)?, Reg::new(5)?);
    if does(&mut registers, blocks, &p, 0) {
        Some(registers)
    } else {
        None
    }
}

/// Block 0 with 24 cells, and block 1, which was freed.
fn two_blocks(alloc: Global) -> Result<Blocks, AllocError> {
    let mut blocks = Blocks::new(alloc);
    blocks.alloc_block(24, true)?;
    blocks.alloc_block(24, true)?;
    blocks.free_top();
    Ok(blocks)
}

const POINTER: Val = Val::Ptr(0, 8);

const CARRY: Val = Val::Int(1);

/// The values of r3 and r4, and those of r5 and CA afterwards.
static RESULTS: [(Row, Val, Val, Option<(Val, Val)>); 40] = [
    (
        Row::Same(LogOp::Or),
        Val::Int(5),
        Val::Undef,
        Some((Val::Int(5), CARRY)),
    ),
    (
        Row::Same(LogOp::Or),
        POINTER,
        Val::Undef,
        Some((POINTER, CARRY)),
    ),
    (
        Row::Same(LogOp::Or),
        Val::Code(2, 1),
        Val::Undef,
        Some((Val::Code(2, 1), CARRY)),
    ),
    (
        Row::Same(LogOp::Or),
        Val::Ext(2, 4),
        Val::Undef,
        Some((Val::Ext(2, 4), CARRY)),
    ),
    (
        Row::Same(LogOp::Or),
        Val::Stop,
        Val::Undef,
        Some((Val::Stop, CARRY)),
    ),
    (
        Row::Same(LogOp::Or),
        Val::Ha(1, 0, 0),
        Val::Undef,
        Some((Val::Ha(1, 0, 0), CARRY)),
    ),
    (
        Row::Log(LogOp::Or),
        POINTER,
        POINTER,
        Some((Val::Undef, CARRY)),
    ),
    (
        Row::Log(LogOp::Or),
        Val::Int(5),
        Val::Int(8),
        Some((Val::Int(13), CARRY)),
    ),
    (
        Row::Same(LogOp::And),
        POINTER,
        Val::Undef,
        Some((Val::Undef, CARRY)),
    ),
    (
        Row::Same(LogOp::Xor),
        Val::Undef,
        Val::Undef,
        Some((Val::Undef, CARRY)),
    ),
    (
        Row::Log(LogOp::Sraw),
        Val::Undef,
        Val::Int(0),
        Some((Val::Undef, Val::Undef)),
    ),
    (
        Row::Log(LogOp::Sraw),
        Val::Int(0xffff_fff0),
        Val::Int(4),
        Some((Val::Int(0xffff_ffff), Val::Int(0))),
    ),
    (
        Row::Log2(Log2Op::Extsh),
        POINTER,
        Val::Undef,
        Some((Val::Undef, CARRY)),
    ),
    (
        Row::LogImm(LogImmOp::Ori, 0),
        POINTER,
        Val::Undef,
        Some((Val::Undef, CARRY)),
    ),
    (
        Row::Alu(AluOp::Add),
        POINTER,
        Val::Int(4),
        Some((Val::Ptr(0, 12), CARRY)),
    ),
    (
        Row::Alu(AluOp::Add),
        Val::Int(0xffff_fffc),
        Val::Ext(2, 8),
        Some((Val::Ext(2, 4), CARRY)),
    ),
    (
        Row::Alu(AluOp::Add),
        POINTER,
        POINTER,
        Some((Val::Undef, CARRY)),
    ),
    (
        Row::Alu(AluOp::Add),
        Val::Code(2, 0),
        Val::Int(0),
        Some((Val::Code(2, 0), CARRY)),
    ),
    (
        Row::Alu(AluOp::Add),
        Val::Stop,
        Val::Int(4),
        Some((Val::Undef, CARRY)),
    ),
    (
        Row::Alu(AluOp::Addc),
        Val::Int(0xffff_ffff),
        Val::Int(1),
        Some((Val::Int(0), Val::Int(1))),
    ),
    (
        Row::Alu(AluOp::Addc),
        POINTER,
        Val::Int(4),
        Some((Val::Undef, Val::Undef)),
    ),
    (
        Row::Alu(AluOp::Adde),
        Val::Int(1),
        Val::Int(2),
        Some((Val::Int(4), Val::Int(0))),
    ),
    (
        Row::Alu(AluOp::Subf),
        Val::Int(4),
        POINTER,
        Some((Val::Ptr(0, 4), CARRY)),
    ),
    (
        Row::Alu(AluOp::Subf),
        POINTER,
        Val::Ptr(0, 20),
        Some((Val::Int(12), CARRY)),
    ),
    (
        Row::Alu(AluOp::Subf),
        Val::Ptr(1, 0),
        Val::Ptr(1, 4),
        Some((Val::Undef, CARRY)),
    ),
    (
        Row::Alu(AluOp::Subf),
        POINTER,
        Val::Int(0),
        Some((Val::Undef, CARRY)),
    ),
    (
        Row::Alu(AluOp::Mullw),
        POINTER,
        Val::Int(1),
        Some((Val::Undef, CARRY)),
    ),
    (
        Row::Alu2(Alu2Op::Neg),
        POINTER,
        Val::Undef,
        Some((Val::Undef, CARRY)),
    ),
    (
        Row::AluImm(AluImmOp::Addi, -4),
        POINTER,
        Val::Undef,
        Some((Val::Ptr(0, 4), CARRY)),
    ),
    (
        Row::AluImm(AluImmOp::Addis, 1),
        POINTER,
        Val::Undef,
        Some((Val::Ptr(0, 0x1_0008), CARRY)),
    ),
    (
        Row::AluImm(AluImmOp::Addic, 4),
        POINTER,
        Val::Undef,
        Some((Val::Undef, Val::Undef)),
    ),
    (
        Row::AluImm(AluImmOp::Mulli, 1),
        POINTER,
        Val::Undef,
        Some((Val::Undef, CARRY)),
    ),
    (
        Row::Move(MoveOp::Mflr),
        Val::Undef,
        Val::Undef,
        Some((Val::Code(2, 7), CARRY)),
    ),
    (
        Row::Alu(AluOp::Divw),
        Val::Int(0xffff_fff9),
        Val::Int(2),
        Some((Val::Int(0xffff_fffd), CARRY)),
    ),
    (
        Row::Alu(AluOp::Divwu),
        Val::Int(0x8000_0000),
        Val::Int(0xffff_ffff),
        Some((Val::Int(0), CARRY)),
    ),
    (
        Row::Alu(AluOp::Divw),
        Val::Int(0x8000_0000),
        Val::Int(0xffff_ffff),
        None,
    ),
    (Row::Alu(AluOp::Divw), Val::Int(7), Val::Int(0), None),
    (Row::Alu(AluOp::Divwu), Val::Int(7), Val::Int(0), None),
    (Row::Alu(AluOp::Divw), POINTER, Val::Int(1), None),
    (Row::Alu(AluOp::Divw), Val::Int(1), Val::Undef, None),
];

fn results() -> &'static [(Row, Val, Val, Option<(Val, Val)>)] {
    &RESULTS
}

#[test]
fn results_on_values(rt: HostRuntime) -> Result<(), Fail> {
    let blocks = two_blocks(rt.alloc())?;
    for (row, u, v, want) in results() {
        let found = match after(&blocks, *row, *u, *v) {
            Some(r) => Some((r.get(Place::Gpr(5)), r.get(Place::Ca))),
            None => None,
        };
        assert_eq!(rt; found, *want, "{row:?} {u:?} {v:?}");
    }
    Ok(())
}

/// Less, greater, equal or not known, and the last bit, which is no value.
fn comparison(answer: char) -> [Val; 4] {
    let (less, greater, equal) = match answer {
        '<' => (1, 0, 0),
        '>' => (0, 1, 0),
        '=' => (0, 0, 1),
        _ => return [Val::Undef; 4],
    };
    [
        Val::Int(less),
        Val::Int(greater),
        Val::Int(equal),
        Val::Undef,
    ]
}

/// The values of r3 and r4, and a field of the condition register afterwards, by its first bit.
static FIELDS: [(Row, Val, Val, u8, char); 12] = [
    (Row::Cmp(CmpOp::Cmplw), POINTER, Val::Ptr(0, 24), 4, '<'),
    (Row::Cmp(CmpOp::Cmplw), POINTER, Val::Ptr(0, 25), 4, '.'),
    (Row::Cmp(CmpOp::Cmplw), POINTER, Val::Int(0), 4, '>'),
    (
        Row::Cmp(CmpOp::Cmplw),
        Val::Int(0xffff_ffff),
        Val::Int(0),
        4,
        '>',
    ),
    (
        Row::Cmp(CmpOp::Cmpw),
        Val::Int(0xffff_ffff),
        Val::Int(0),
        4,
        '<',
    ),
    (Row::Cmp(CmpOp::Cmpw), POINTER, POINTER, 4, '.'),
    (
        Row::CmpImm(CmpImmOp::Cmplwi, 0),
        Val::Code(2, 0),
        Val::Undef,
        4,
        '>',
    ),
    (
        Row::CmpImm(CmpImmOp::Cmpwi, -1),
        Val::Int(0xffff_ffff),
        Val::Undef,
        4,
        '=',
    ),
    (
        Row::Log(LogOp::AndDot),
        Val::Int(0xf0),
        Val::Int(0x0f),
        0,
        '=',
    ),
    (Row::Log(LogOp::AndDot), POINTER, Val::Int(0x0f), 0, '.'),
    (
        Row::LogImm(LogImmOp::AndiDot, 0xffff),
        Val::Int(3),
        Val::Undef,
        0,
        '>',
    ),
    (
        Row::LogImm(LogImmOp::AndisDot, 0x8000),
        Val::Int(0x8000_0000),
        Val::Undef,
        0,
        '<',
    ),
];

fn fields() -> &'static [(Row, Val, Val, u8, char)] {
    &FIELDS
}

/// The bit 5 afterwards, where the bit 6 is 1 and the bit 7 is no value.
static BITS: [(CrBitOp, u8, u8, Val); 8] = [
    (CrBitOp::Crxor, 7, 7, Val::Int(0)),
    (CrBitOp::Creqv, 7, 7, Val::Int(1)),
    (CrBitOp::Cror, 7, 7, Val::Undef),
    (CrBitOp::Crxor, 6, 7, Val::Undef),
    (CrBitOp::Creqv, 7, 6, Val::Undef),
    (CrBitOp::Crxor, 6, 6, Val::Int(0)),
    (CrBitOp::Creqv, 6, 6, Val::Int(1)),
    (CrBitOp::Cror, 6, 6, Val::Int(1)),
];

fn bits() -> &'static [(CrBitOp, u8, u8, Val)] {
    &BITS
}

fn field_at(registers: &Registers, from: u8) -> [Val; 4] {
    if from < 32 {
        [
            registers.get(Place::Bit(from)),
            registers.get(Place::Bit(from + 1)),
            registers.get(Place::Bit(from + 2)),
            registers.get(Place::Bit(from + 3)),
        ]
    } else {
        [Val::Undef; 4]
    }
}

#[test]
fn bits_of_the_condition_register(rt: HostRuntime) -> Result<(), Fail> {
    let blocks = two_blocks(rt.alloc())?;
    for (row, u, v, from, want) in fields() {
        let registers = after(&blocks, *row, *u, *v).ok_or("defined")?;
        assert_eq!(rt;
            field_at(&registers, *from),
            comparison(*want),
            "{row:?} {u:?} {v:?}"
        );
    }
    for (o, a, b, want) in bits() {
        let registers = after(&blocks, Row::CrBit(*o, *a, *b), Val::Undef, Val::Undef).ok_or(
            "defined",
        )?;
        assert_eq!(rt; registers.get(Place::Bit(5)), *want, "{o:?} {a} {b}");
    }
    Ok(())
}

#[derive(Clone, Copy, Debug, Drop)]
enum Part {
    Lo,
    Ha,
    Sda,
}

fn constant(part: Part, name: Name, offset: i32) -> Const {
    match part {
        Part::Lo => Const::Lo(name, offset),
        Part::Ha => Const::Ha(name, offset),
        Part::Sda => Const::Sda(name, offset),
    }
}

/// The part of the address of a key at an offset, the register of the base, what r4 holds, and what r5 holds afterwards.
static SYMBOLS: [(AluImmOp, Part, u32, i32, u8, Val, Val); 16] = [
    (
        AluImmOp::Addis,
        Part::Ha,
        1,
        8,
        0,
        POINTER,
        Val::Ha(1, 8, 0),
    ),
    (
        AluImmOp::Addis,
        Part::Ha,
        1,
        8,
        4,
        Val::Int(16),
        Val::Ha(1, 8, 16),
    ),
    (AluImmOp::Addis, Part::Ha, 1, 8, 4, POINTER, Val::Undef),
    (
        AluImmOp::Addis,
        Part::Lo,
        1,
        8,
        4,
        Val::Ha(1, 8, 0),
        Val::Undef,
    ),
    (AluImmOp::Addi, Part::Ha, 1, 8, 4, Val::Int(0), Val::Undef),
    (
        AluImmOp::Addi,
        Part::Lo,
        1,
        8,
        4,
        Val::Ha(1, 8, 16),
        Val::Ptr(0, 24),
    ),
    (
        AluImmOp::Addi,
        Part::Lo,
        1,
        8,
        4,
        Val::Ha(1, 4, 16),
        Val::Undef,
    ),
    (
        AluImmOp::Addi,
        Part::Lo,
        1,
        8,
        4,
        Val::Ha(2, 8, 16),
        Val::Undef,
    ),
    (
        AluImmOp::Addi,
        Part::Lo,
        1,
        8,
        0,
        Val::Ha(1, 8, 0),
        Val::Undef,
    ),
    (
        AluImmOp::Addi,
        Part::Lo,
        0,
        0,
        4,
        Val::Ha(0, 0, 0),
        Val::Code(2, 0),
    ),
    (
        AluImmOp::Addi,
        Part::Lo,
        0,
        0,
        4,
        Val::Ha(0, 0, 4),
        Val::Undef,
    ),
    (
        AluImmOp::Addi,
        Part::Lo,
        0,
        -4,
        4,
        Val::Ha(0, -4, 4),
        Val::Code(2, 0),
    ),
    (
        AluImmOp::Addi,
        Part::Lo,
        2,
        -4,
        4,
        Val::Ha(2, -4, 16),
        Val::Ext(2, 12),
    ),
    (AluImmOp::Addi, Part::Sda, 1, 8, 0, POINTER, Val::Ptr(0, 8)),
    (AluImmOp::Addi, Part::Sda, 1, 8, 4, Val::Int(4), Val::Undef),
    (
        AluImmOp::Addic,
        Part::Lo,
        1,
        8,
        4,
        Val::Ha(1, 8, 0),
        Val::Undef,
    ),
];

fn symbols() -> &'static [(AluImmOp, Part, u32, i32, u8, Val, Val)] {
    &SYMBOLS
}

#[test]
fn parts_of_addresses(rt: HostRuntime) -> Result<(), Fail> {
    let blocks = two_blocks(rt.alloc())?;
    let r5 = Reg::new(5).ok_or("r5")?;
    for (o, part, key, offset, base, v, want) in symbols() {
        let mut registers = Registers::new();
        registers.put(Place::Gpr(4), *v);
        let c = constant(*part, Name::from_bytes(rt.alloc(), b"x")?, *offset);
        let p = Plain::AluImm(*o, r5, Reg::new(*base).ok_or("a base")?, c);
        assert!(rt; does(&mut registers, &blocks, &p, *key));
        assert_eq!(rt;
            registers.get(Place::Gpr(5)),
            *want,
            "{o:?} {part:?} {key} {offset} {v:?}"
        );
    }
    Ok(())
}

/// What is stored at 4, and what is loaded from an offset.
static ACCESSES: [(Form, Val, Form, u32, Option<Val>); 13] = [
    (
        Form::Word,
        Val::Int(0x1234_8000),
        Form::SignedHalf,
        6,
        Some(Val::Int(0xffff_8000)),
    ),
    (
        Form::Word,
        Val::Int(0x1234_8000),
        Form::SignedHalf,
        4,
        Some(Val::Int(0x1234)),
    ),
    (
        Form::Word,
        Val::Int(0x1234_8000),
        Form::Half,
        6,
        Some(Val::Int(0x8000)),
    ),
    (
        Form::Word,
        Val::Int(0x1234_8000),
        Form::Byte,
        6,
        Some(Val::Int(0x80)),
    ),
    (
        Form::ReversedWord,
        Val::Int(0x1234_5678),
        Form::Word,
        4,
        Some(Val::Int(0x7856_3412)),
    ),
    (
        Form::Word,
        Val::Int(0x1234_5678),
        Form::ReversedHalf,
        4,
        Some(Val::Int(0x3412)),
    ),
    (
        Form::ReversedHalf,
        Val::Int(0x1234),
        Form::Half,
        4,
        Some(Val::Int(0x3412)),
    ),
    (Form::Word, POINTER, Form::Word, 4, Some(POINTER)),
    (Form::Word, POINTER, Form::ReversedWord, 4, Some(Val::Undef)),
    (Form::Word, POINTER, Form::SignedHalf, 4, Some(Val::Undef)),
    (Form::Half, POINTER, Form::Byte, 5, Some(Val::Undef)),
    (Form::Byte, Val::Int(0x1ff), Form::SignedHalf, 5, None),
    (Form::Byte, Val::Int(0x1ff), Form::ReversedWord, 22, None),
];

fn accesses() -> &'static [(Form, Val, Form, u32, Option<Val>)] {
    &ACCESSES
}

#[test]
fn loads_and_stores_by_form(rt: HostRuntime) -> Result<(), Fail> {
    for (to, v, from, offset, want) in accesses() {
        let mut blocks = two_blocks(rt.alloc())?;
        assert!(rt; store(&mut blocks, *to, Val::Ptr(0, 4), *v));
        assert!(rt; !store(&mut blocks, *to, Val::Ptr(1, 4), *v));
        assert_eq!(rt;
            load(&blocks, *from, Val::Ptr(0, *offset)),
            *want,
            "{v:?} {offset}"
        );
    }
    Ok(())
}
