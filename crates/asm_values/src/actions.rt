//! The row of each plain instruction.

ghost use Rattle.std.specs.Prelude.{◌≡◌};
ghost use Rattle.asm_values.specs.Actions.{HasField, constant_of, plain_action, value_cr_bit, value_log};
ghost use Rattle.asm_values.specs.WordLaw.{ObeysWordLaw};

use asm_syntax::instr::{Const, Plain};
use effect_model::{Action, Constant, Effects, Operand, Place};
use effect_ops::rows;

fn constant(c: &Const, key: u32) -> Constant
    ensures { result ≡ constant_of c.now key }
{
    match c {
        Const::Int(n) => Constant::Int(*n),
        Const::Lo(_, o) => Constant::Lo(key, *o),
        Const::Ha(_, o) => Constant::Ha(key, *o),
        Const::Sda(_, o) => Constant::Sda(key, *o),
    }
}

const OR: u8 = 7;

fn log(k: u8, a: u8, s: u8, b: u8) -> Action
    ensures { result ≡ value_log k a s b }
{
    if k == OR && s == b {
        Action::Work(Effects::One(rows::moved(Operand::At(Place::Gpr(s)), Place::Gpr(a))))
    } else {
        rows::log(k, a, s, b)
    }
}

/// Of the row crxor, creqv, cror.
fn cr_bit(k: u8, t: u8, a: u8, b: u8) -> Action
    ensures { result ≡ value_cr_bit k t a b }
{
    if a == b && k < 2 {
        Action::Work(Effects::One(rows::moved(Operand::Number(u32::from(k)), Place::Bit(t))))
    } else {
        rows::cr_bit(k, t, a, b)
    }
}

/// The same as `action`.
fn row(p: &Plain, key: u32) -> Action
    requires { HasField p.now }
    ensures { result ≡ plain_action p.now key }
{
    match p {
        Plain::AluImm(o, d, a, c) => {
            rows::alu_imm(o.place(), d.number(), a.number(), constant(c, key))
        }
        Plain::LogImm(o, a, s, n) => {
            rows::log_imm(o.place(), a.number(), s.number(), u32::from(*n))
        }
        Plain::Alu(o, d, a, b) => rows::alu(o.place(), d.number(), a.number(), b.number()),
        Plain::Alu2(o, d, a) => rows::alu2(o.place(), d.number(), a.number()),
        Plain::Log(o, a, s, b) => log(o.place(), a.number(), s.number(), b.number()),
        Plain::Log2(o, a, s) => rows::log2(o.place(), a.number(), s.number()),
        Plain::Srawi(a, s, n) => rows::srawi(a.number(), s.number(), *n),
        Plain::Rot(o, a, s, sh, mb, me) => {
            rows::rot(o.place(), a.number(), s.number(), *sh, *mb, *me)
        }
        Plain::Load(o, d, c, a) => {
            rows::load(o.place(), d.number(), constant(c, key), a.number())
        }
        Plain::LoadX(o, d, a, b) => rows::load_x(o.place(), d.number(), a.number(), b.number()),
        Plain::Store(o, s, c, a) => {
            rows::store(o.place(), s.number(), constant(c, key), a.number())
        }
        Plain::StoreX(o, s, a, b) => {
            rows::store_x(o.place(), s.number(), a.number(), b.number())
        }
        Plain::Cmp(o, f, a, b) => rows::cmp(
            o.place(),
            *f,
            a.number(),
            Operand::At(Place::Gpr(b.number())),
        ),
        Plain::CmpImm(o, f, a, n) => rows::cmp(
            o.place(),
            *f,
            a.number(),
            Operand::Number(n.cast_unsigned()),
        ),
        Plain::CrBit(o, t, a, b) => cr_bit(o.place(), *t, *a, *b),
        Plain::Move(o, r) => rows::move_to_or_from(o.place(), r.number()),
        Plain::Bar(_) => Action::Work(Effects::Nothing),
        Plain::Jump(_) => Action::Jump,
    }
}

/// What a plain instruction does, where `key` is the key of the symbol that it names. It is the row of the instruction set,
/// but that `or` of a register with itself copies any value, and crxor and creqv of a bit with itself give 0 and 1. On words
/// the two do the same.
#[tactic(auto, using(crate::proofs::WordLaw::word_law))]
pub fn action(p: &Plain, key: u32) -> Action
    requires { HasField p.now }
    ensures value { result ≡ plain_action p.now key }
    ensures words { ObeysWordLaw p.now key result }
{
    row(p, key)
}
