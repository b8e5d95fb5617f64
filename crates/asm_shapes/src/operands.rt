//! The ranges of operands.

ghost use Rattle.std.specs.Prelude.{◌≡◌};
ghost use Rattle.isa_model.specs.Operands.{is_s16, is_u16};
ghost use Rattle.asm_shapes.specs.Operands.{
  frame_fits,
  instr_in_range,
  is_address_constant,
  is_alu_constant,
  is_compared,
  is_frame_size,
  is_high_constant,
  is_short,
  plain_in_range,
};

use asm_syntax::instr::{Const, Instr, Plain};
use asm_syntax::operations::{AluImmOp, CmpImmOp};
use asm_syntax::reg::Reg;
use limits::{LEAST_FRAME_BYTES, MOST_FRAME_BYTES};

fn is_s16(n: i32) -> bool
    ensures { result ≡ is_s16 n }
{
    -32768 <= n && n <= 32767
}

fn is_u16(n: i32) -> bool
    ensures { result ≡ is_u16 n }
{
    0 <= n && n <= 65535
}

/// Whether it is a number of 16 bits with a sign.
fn is_short(c: &Const) -> bool
    ensures { result ≡ is_short c.now }
{
    match c {
        Const::Int(n) => is_s16(*n),
        _ => false,
    }
}

fn is_high_constant(c: &Const) -> bool
    ensures { result ≡ is_high_constant c.now }
{
    match c {
        Const::Int(n) => is_s16(*n),
        Const::Ha(_, _) => true,
        _ => false,
    }
}

fn is_address_constant(c: &Const, a: Reg) -> bool
    ensures { result ≡ is_address_constant c.now a }
{
    match c {
        Const::Int(n) => is_s16(*n),
        Const::Lo(_, _) => true,
        Const::Ha(_, _) => false,
        Const::Sda(_, _) => a.number() == 0,
    }
}

fn is_alu_constant(op: AluImmOp, c: &Const, a: Reg) -> bool
    ensures { result ≡ is_alu_constant op c.now a }
{
    match op {
        AluImmOp::Addi => is_address_constant(c, a),
        AluImmOp::Addis => is_high_constant(c),
        _ => is_short(c),
    }
}

fn is_compared(op: CmpImmOp, n: i32) -> bool
    ensures { result ≡ is_compared op n }
{
    match op {
        CmpImmOp::Cmpwi => is_s16(n),
        CmpImmOp::Cmplwi => is_u16(n),
    }
}

/// Whether the operands are those that the instruction table allows.
pub fn plain_in_range(plain: &Plain) -> bool
    ensures { result ≡ plain_in_range plain.now }
{
    match plain {
        Plain::AluImm(op, _, a, c) => is_alu_constant(*op, c, *a),
        Plain::Srawi(_, _, n) => *n < 32,
        Plain::Rot(_, _, _, sh, mb, me) => *sh < 32 && *mb < 32 && *me < 32,
        Plain::Load(_, _, c, a) | Plain::Store(_, _, c, a) => is_address_constant(c, *a),
        Plain::Cmp(_, f, _, _) => *f < 8,
        Plain::CmpImm(op, f, _, n) => *f < 8 && is_compared(*op, *n),
        Plain::CrBit(_, t, a, b) => *t < 32 && *a < 32 && *b < 32,
        _ => true,
    }
}

/// Whether the operands are inside their ranges. A frame's size is not looked at.
pub fn instr_in_range(instr: &Instr) -> bool
    ensures { result ≡ instr_in_range instr.now }
{
    match instr {
        Instr::Plain(plain) => plain_in_range(plain),
        Instr::Bt(bit, _) | Instr::Bf(bit, _) | Instr::MfcrBit(_, bit) => *bit < 32,
        _ => true,
    }
}

fn is_frame_size(n: u32) -> bool
    ensures { result ≡ is_frame_size n }
{
    LEAST_FRAME_BYTES <= n && n <= MOST_FRAME_BYTES && n % 8 == 0
}

/// Whether the size of a frame, where the instruction makes or frees one, is a multiple of 8 from 16 to 1,048,576.
pub fn frame_fits(instr: &Instr) -> bool
    ensures { result ≡ frame_fits instr.now }
{
    match instr {
        Instr::AllocFrame(n) | Instr::FreeFrame(n) => is_frame_size(*n),
        _ => true,
    }
}
