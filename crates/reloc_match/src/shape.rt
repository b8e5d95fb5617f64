//! By what the word of a plain instruction is judged.

ghost use Rattle.std.specs.Prelude.{◌≡◌, ℕ, ℤ, false};
ghost use Rattle.reloc_match.specs.Gaps.{has_gap};
ghost use Rattle.ppc_decode.specs.declared.machine.Machine.{Machine};
ghost use Rattle.code_model.specs.declared.gap.Gap.TheVariants.{Closed};
ghost use Rattle.code_model.specs.Forms.{constant_form, plain_form, jump_form};
ghost use Rattle.code_model.specs.Spelling.{found_instruction};
ghost use Rattle.code_model.specs.WordChecks.{right_instruction, shape_of};

use crate::fields::{address_plus, base_field, half_field};
use asm_syntax::instr::{Const, Jump, Plain};
use asm_syntax::reg::Reg;
use code_model::gap::{Gap, Shape};
use ppc_decode::displacement::{
    displacement_16_between, displacement_16_in, displacement_26_between, displacement_26_in,
    signed_16,
};
use ppc_decode::machine::Machine;
use word_ops::words::{ha, lo};

/// A word that is one instruction alone.
pub fn closed(m: Machine) -> Shape
    ensures { result ≡ record { gap = Closed; found = m; right = m } }
{
    Shape {
        gap: Gap::Closed,
        found: m,
        right: m,
    }
}

fn constant_gap(c: &Const, t: u32) -> Gap
    ensures { (a : ℕ) (made : ℕ → ℤ → Machine) → result ≡ (constant_form t a c.now made).gap }
{
    match c {
        Const::Int(_) => Gap::Closed,
        Const::Lo(_, offset) => Gap::Half(lo(address_plus(t, *offset))),
        Const::Ha(_, offset) => Gap::Half(ha(address_plus(t, *offset))),
        Const::Sda(_, offset) => Gap::SmallData(address_plus(t, *offset)),
    }
}

/// The base register and the number beside it, as the word has them where they are open.
fn found_operand(c: &Const, a: Reg, word: u32) -> (u8, i32)
    ensures { (t : ℕ) (made : ℕ → ℤ → Machine) →
        found_instruction (constant_form t a c.now made) word ≡ made result.0 result.1 }
{
    match c {
        Const::Int(n) => (a.number(), *n),
        Const::Lo(_, _) | Const::Ha(_, _) => (a.number(), half_field(word)),
        Const::Sda(_, _) => (base_field(word), half_field(word)),
    }
}

/// The base register and the number that belong there; zeros for small data.
fn right_operand(c: &Const, a: Reg, t: u32) -> (u8, i32)
    ensures { (at : ℕ) (made : ℕ → ℤ → Machine) →
        right_instruction at (constant_form t a c.now made) ≡ made result.0 result.1 }
{
    match c {
        Const::Int(n) => (a.number(), *n),
        Const::Lo(_, offset) => (a.number(), signed_16(lo(address_plus(t, *offset)))),
        Const::Ha(_, offset) => (a.number(), signed_16(ha(address_plus(t, *offset)))),
        Const::Sda(_, _) => (0, 0),
    }
}

fn jump_shape(jump: &Jump, at: u32, t: u32, word: u32) -> Shape
    ensures { result ≡ shape_of at (jump_form t jump.now) word }
{
    match jump {
        Jump::B(_) | Jump::Bs(_) => Shape {
            gap: Gap::Far(t),
            found: Machine::B(displacement_26_in(word)),
            right: Machine::B(displacement_26_between(at, t)),
        },
        Jump::Bl(_) => Shape {
            gap: Gap::Far(t),
            found: Machine::Bl(displacement_26_in(word)),
            right: Machine::Bl(displacement_26_between(at, t)),
        },
        Jump::Bdnz(_) => Shape {
            gap: Gap::Near(t),
            found: Machine::Bc(16, 0, displacement_16_in(word)),
            right: Machine::Bc(16, 0, displacement_16_between(at, t)),
        },
        Jump::Blr => closed(Machine::Blr),
        Jump::Bctr => closed(Machine::Bctr),
        Jump::Bctrl => closed(Machine::Bctrl),
        Jump::Trap => closed(Machine::Trap),
    }
}

/// The instruction of a plain instruction that leaves nothing open in its word.
fn closed_instruction(plain: &Plain) -> Machine
    requires { has_gap plain.now ≡ false }
    ensures { (at t word : ℕ) → shape_of at (plain_form t plain.now) word ≡ record { gap = Closed; found = result; right = result } }
{
    match plain {
        Plain::LogImm(op, a, s, n) => Machine::LogImm(
            op.place(),
            a.number(),
            s.number(),
            i32::from(*n),
        ),
        Plain::Alu(op, d, a, b) => Machine::Alu(op.place(), d.number(), a.number(), b.number()),
        Plain::Alu2(op, d, a) => Machine::Alu2(op.place(), d.number(), a.number()),
        Plain::Log(op, a, s, b) => Machine::Log(op.place(), a.number(), s.number(), b.number()),
        Plain::Log2(op, a, s) => Machine::Log2(op.place(), a.number(), s.number()),
        Plain::Srawi(a, s, n) => Machine::Srawi(a.number(), s.number(), *n),
        Plain::Rot(op, a, s, sh, mb, me) => Machine::Rot(
            op.place(),
            a.number(),
            s.number(),
            *sh,
            *mb,
            *me,
        ),
        Plain::LoadX(op, d, a, b) => Machine::LoadX(op.place(), d.number(), a.number(), b.number()),
        Plain::StoreX(op, s, a, b) => Machine::StoreX(
            op.place(),
            s.number(),
            a.number(),
            b.number(),
        ),
        Plain::Cmp(op, f, a, b) => Machine::Cmp(op.place(), *f, a.number(), b.number()),
        Plain::CmpImm(op, f, a, n) => Machine::CmpImm(op.place(), *f, a.number(), *n),
        Plain::CrBit(op, x, a, b) => Machine::CrBit(op.place(), *x, *a, *b),
        Plain::Move(op, r) => Machine::Move(op.place(), r.number()),
        Plain::Bar(op) => Machine::Bar(op.place()),
        Plain::AluImm(..) | Plain::Load(..) | Plain::Store(..) | Plain::Jump(_) => unreachable!(),
    }
}

/// The shape of a plain instruction's word at an address. The symbol or label that the instruction names has the address `t`.
pub fn plain_shape(plain: &Plain, at: u32, t: u32, word: u32) -> Shape
    ensures { result ≡ shape_of at (plain_form t plain.now) word }
{
    match plain {
        Plain::AluImm(op, d, a, c) => {
            let found = found_operand(c, *a, word);
            let right = right_operand(c, *a, t);
            Shape {
                gap: constant_gap(c, t),
                found: Machine::AluImm(op.place(), d.number(), found.0, found.1),
                right: Machine::AluImm(op.place(), d.number(), right.0, right.1),
            }
        }
        Plain::Load(op, d, c, a) => {
            let found = found_operand(c, *a, word);
            let right = right_operand(c, *a, t);
            Shape {
                gap: constant_gap(c, t),
                found: Machine::Load(op.place(), d.number(), found.1, found.0),
                right: Machine::Load(op.place(), d.number(), right.1, right.0),
            }
        }
        Plain::Store(op, s, c, a) => {
            let found = found_operand(c, *a, word);
            let right = right_operand(c, *a, t);
            Shape {
                gap: constant_gap(c, t),
                found: Machine::Store(op.place(), s.number(), found.1, found.0),
                right: Machine::Store(op.place(), s.number(), right.1, right.0),
            }
        }
        Plain::Jump(jump) => jump_shape(jump, at, t, word),
        _ => closed(closed_instruction(plain)),
    }
}
