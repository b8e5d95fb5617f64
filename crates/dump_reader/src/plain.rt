//! The plain instructions, class by class.

ghost use Rattle.std.specs.Prelude.{◌≡◌, map};
ghost use Rattle.serde_json.specs.View.{view};
ghost use Rattle.json_tree.specs.Answers.{Gives};
ghost use Rattle.dump_reader.specs.Instructions.{alu_imm, log_imm, alu, alu2, log, log2, srawi, rot, load, store, load_x, store_x, cmp};
ghost use Rattle.dump_reader.specs.Instructions.{cmp_imm, cr_bit, move_special, bar};

use crate::constant::{alu_constant, displacement};
use crate::operands::{bit_number, compared, cr_field, register, three_registers, two_registers};
use asm_syntax::instr::{Instr, Plain};
use asm_syntax::operations::{
    Alu2Op, AluImmOp, AluOp, BarOp, CmpImmOp, CmpOp, CrBitOp, LoadOp, LoadXOp, Log2Op, LogImmOp,
    LogOp, MoveOp, RotOp, StoreOp, StoreXOp,
};
use json_tree::array::{counted, nth};
use json_tree::fault::ReadError;
use serde_json::Value;
use std::alloc::Global;

#[tactic(auto, unfolding(crate::specs::Instructions::alu_imm))]
pub fn alu_imm(alloc: Global, op: AluImmOp, values: &[Value]) -> Result<Instr, ReadError>
    ensures { Gives result (alu_imm op (map view values.now)) }
{
    counted(alloc, values, 4)?;
    let d = register(alloc, values, 1)?;
    let a = register(alloc, values, 2)?;
    let c = alu_constant(alloc, values, 3, op)?;
    Ok(Instr::Plain(Plain::AluImm(op, d, a, c)))
}

#[tactic(auto, unfolding(crate::specs::Instructions::log_imm))]
pub fn log_imm(alloc: Global, op: LogImmOp, values: &[Value]) -> Result<Instr, ReadError>
    ensures { Gives result (log_imm op (map view values.now)) }
{
    counted(alloc, values, 4)?;
    let a = register(alloc, values, 1)?;
    let s = register(alloc, values, 2)?;
    let n = nth(alloc, values, 3)?;
    Ok(Instr::Plain(Plain::LogImm(op, a, s, n)))
}

#[tactic(auto, unfolding(crate::specs::Instructions::alu))]
pub fn alu(alloc: Global, op: AluOp, values: &[Value]) -> Result<Instr, ReadError>
    ensures { Gives result (alu op (map view values.now)) }
{
    let (d, a, b) = three_registers(alloc, values)?;
    Ok(Instr::Plain(Plain::Alu(op, d, a, b)))
}

#[tactic(auto, unfolding(crate::specs::Instructions::alu2))]
pub fn alu2(alloc: Global, op: Alu2Op, values: &[Value]) -> Result<Instr, ReadError>
    ensures { Gives result (alu2 op (map view values.now)) }
{
    let (d, a) = two_registers(alloc, values)?;
    Ok(Instr::Plain(Plain::Alu2(op, d, a)))
}

#[tactic(auto, unfolding(crate::specs::Instructions::log))]
pub fn log(alloc: Global, op: LogOp, values: &[Value]) -> Result<Instr, ReadError>
    ensures { Gives result (log op (map view values.now)) }
{
    let (a, s, b) = three_registers(alloc, values)?;
    Ok(Instr::Plain(Plain::Log(op, a, s, b)))
}

#[tactic(auto, unfolding(crate::specs::Instructions::log2))]
pub fn log2(alloc: Global, op: Log2Op, values: &[Value]) -> Result<Instr, ReadError>
    ensures { Gives result (log2 op (map view values.now)) }
{
    let (a, s) = two_registers(alloc, values)?;
    Ok(Instr::Plain(Plain::Log2(op, a, s)))
}

#[tactic(auto, unfolding(crate::specs::Instructions::srawi))]
pub fn srawi(alloc: Global, values: &[Value]) -> Result<Instr, ReadError>
    ensures { Gives result (srawi (map view values.now)) }
{
    counted(alloc, values, 4)?;
    let a = register(alloc, values, 1)?;
    let s = register(alloc, values, 2)?;
    let n = bit_number(alloc, values, 3)?;
    Ok(Instr::Plain(Plain::Srawi(a, s, n)))
}

#[tactic(auto, unfolding(crate::specs::Instructions::rot))]
pub fn rot(alloc: Global, op: RotOp, values: &[Value]) -> Result<Instr, ReadError>
    ensures { Gives result (rot op (map view values.now)) }
{
    counted(alloc, values, 6)?;
    let a = register(alloc, values, 1)?;
    let s = register(alloc, values, 2)?;
    let sh = bit_number(alloc, values, 3)?;
    let mb = bit_number(alloc, values, 4)?;
    let me = bit_number(alloc, values, 5)?;
    Ok(Instr::Plain(Plain::Rot(op, a, s, sh, mb, me)))
}

#[tactic(auto, unfolding(crate::specs::Instructions::load))]
pub fn load(alloc: Global, op: LoadOp, values: &[Value]) -> Result<Instr, ReadError>
    ensures { Gives result (load op (map view values.now)) }
{
    counted(alloc, values, 4)?;
    let d = register(alloc, values, 1)?;
    let c = displacement(alloc, values, 2)?;
    let a = register(alloc, values, 3)?;
    Ok(Instr::Plain(Plain::Load(op, d, c, a)))
}

#[tactic(auto, unfolding(crate::specs::Instructions::store))]
pub fn store(alloc: Global, op: StoreOp, values: &[Value]) -> Result<Instr, ReadError>
    ensures { Gives result (store op (map view values.now)) }
{
    counted(alloc, values, 4)?;
    let s = register(alloc, values, 1)?;
    let c = displacement(alloc, values, 2)?;
    let a = register(alloc, values, 3)?;
    Ok(Instr::Plain(Plain::Store(op, s, c, a)))
}

#[tactic(auto, unfolding(crate::specs::Instructions::load_x))]
pub fn load_x(alloc: Global, op: LoadXOp, values: &[Value]) -> Result<Instr, ReadError>
    ensures { Gives result (load_x op (map view values.now)) }
{
    let (d, a, b) = three_registers(alloc, values)?;
    Ok(Instr::Plain(Plain::LoadX(op, d, a, b)))
}

#[tactic(auto, unfolding(crate::specs::Instructions::store_x))]
pub fn store_x(alloc: Global, op: StoreXOp, values: &[Value]) -> Result<Instr, ReadError>
    ensures { Gives result (store_x op (map view values.now)) }
{
    let (s, a, b) = three_registers(alloc, values)?;
    Ok(Instr::Plain(Plain::StoreX(op, s, a, b)))
}

#[tactic(auto, unfolding(crate::specs::Instructions::cmp))]
pub fn cmp(alloc: Global, op: CmpOp, values: &[Value]) -> Result<Instr, ReadError>
    ensures { Gives result (cmp op (map view values.now)) }
{
    counted(alloc, values, 4)?;
    let f = cr_field(alloc, values, 1)?;
    let a = register(alloc, values, 2)?;
    let b = register(alloc, values, 3)?;
    Ok(Instr::Plain(Plain::Cmp(op, f, a, b)))
}

#[tactic(auto, unfolding(crate::specs::Instructions::cmp_imm))]
pub fn cmp_imm(alloc: Global, op: CmpImmOp, values: &[Value]) -> Result<Instr, ReadError>
    ensures { Gives result (cmp_imm op (map view values.now)) }
{
    counted(alloc, values, 4)?;
    let f = cr_field(alloc, values, 1)?;
    let a = register(alloc, values, 2)?;
    let n = compared(alloc, values, 3, op)?;
    Ok(Instr::Plain(Plain::CmpImm(op, f, a, n)))
}

#[tactic(auto, unfolding(crate::specs::Instructions::cr_bit))]
pub fn cr_bit(alloc: Global, op: CrBitOp, values: &[Value]) -> Result<Instr, ReadError>
    ensures { Gives result (cr_bit op (map view values.now)) }
{
    counted(alloc, values, 4)?;
    let t = bit_number(alloc, values, 1)?;
    let a = bit_number(alloc, values, 2)?;
    let b = bit_number(alloc, values, 3)?;
    Ok(Instr::Plain(Plain::CrBit(op, t, a, b)))
}

#[tactic(auto, unfolding(crate::specs::Instructions::move_special))]
pub fn move_special(alloc: Global, op: MoveOp, values: &[Value]) -> Result<Instr, ReadError>
    ensures { Gives result (move_special op (map view values.now)) }
{
    counted(alloc, values, 2)?;
    let r = register(alloc, values, 1)?;
    Ok(Instr::Plain(Plain::Move(op, r)))
}

#[tactic(auto, unfolding(crate::specs::Instructions::bar))]
pub fn bar(alloc: Global, op: BarOp, values: &[Value]) -> Result<Instr, ReadError>
    ensures { Gives result (bar op (map view values.now)) }
{
    counted(alloc, values, 1)?;
    Ok(Instr::Plain(Plain::Bar(op)))
}
