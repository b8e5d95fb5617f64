//! The forms of instructions.

use asm_syntax::operations::{
    Alu2Op, AluImmOp, AluOp, BarOp, CmpImmOp, CmpOp, CrBitOp, LoadOp, LoadXOp, Log2Op, LogImmOp,
    LogOp, MoveOp, RotOp, StoreOp, StoreXOp,
};

/// What a mnemonic selects: a class of instructions, and the operation of it.
#[derive(Clone, Copy, Debug, PartialEq, Eq, Drop)]
pub enum Form {
    AluImm(AluImmOp),
    LogImm(LogImmOp),
    Alu(AluOp),
    Alu2(Alu2Op),
    Log(LogOp),
    Log2(Log2Op),
    Srawi,
    Rot(RotOp),
    Load(LoadOp),
    Store(StoreOp),
    LoadX(LoadXOp),
    StoreX(StoreXOp),
    Cmp(CmpOp),
    CmpImm(CmpImmOp),
    CrBit(CrBitOp),
    Move(MoveOp),
    Bar(BarOp),
    Jump(JumpForm),
    Pseudo(PseudoForm),
}

/// Branches and the trap.
#[derive(Clone, Copy, Debug, PartialEq, Eq, Drop)]
pub enum JumpForm {
    B,
    Bs,
    Bl,
    Bdnz,
    Blr,
    Bctr,
    Bctrl,
    Trap,
}

/// Instructions of the dump that stand for none, one or several words.
#[derive(Clone, Copy, Debug, PartialEq, Eq, Drop)]
pub enum PseudoForm {
    AllocFrame,
    FreeFrame,
    Imm,
    Bt,
    Bf,
    Btbl,
    MfcrBit,
    Label,
    Cfi,
    Annot,
}
