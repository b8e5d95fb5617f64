//! Registers, numbers, labels and names among the operands of instructions.

ghost use Rattle.std.specs.Prelude.{◌≡◌, ◌<◌, length, map};
ghost use Rattle.serde_json.specs.View.{view};
ghost use Rattle.json_tree.specs.Answers.{Gives};
ghost use Rattle.json_tree.specs.Arrays.{nth};
ghost use Rattle.dump_reader.specs.Instructions.{two_registers, three_registers, one_number, one_symbol, bit_and_label};
ghost use Rattle.dump_reader.specs.Operands.{register, bit_number, cr_field, labels, compared};

use crate::profile::Dump;
use asm_syntax::instr::Labels;
use asm_syntax::name::Name;
use asm_syntax::operations::CmpImmOp;
use asm_syntax::reg::Reg;
use json_tree::array::{counted, items, list, nth, nth_by};
use json_tree::fault::{Cause, ReadError};
use json_tree::number::{natural, natural_at, ranged};
use json_tree::tree::{Reads, at_index};
use limits::MOST_LABELS;
use serde_json::Value;
use std::alloc::Global;

impl Reads<Reg> for Dump {
    ghost reads = { register };

    fn read(alloc: Global, tree: &Value) -> Result<Reg, ReadError> {
        let number = natural(alloc, tree, 31)?;
        match Reg::new(number as u8) {
            Some(reg) => Ok(reg),
            None => Err(ReadError::here(alloc, Cause::OutOfRange)),
        }
    }
}

pub fn register(alloc: Global, values: &[Value], index: u32) -> Result<Reg, ReadError>
    requires { index < length values.now }
    ensures { Gives result (nth index register (map view values.now)) }
{
    nth_by::<Dump, Reg>(alloc, values, index)
}

/// A bit of the condition register, or of a word.
pub fn bit_number(alloc: Global, values: &[Value], index: u32) -> Result<u8, ReadError>
    requires { index < length values.now }
    ensures { Gives result (nth index bit_number (map view values.now)) }
{
    Ok(natural_at(alloc, values, index, 31)? as u8)
}

/// A field of the condition register.
pub fn cr_field(alloc: Global, values: &[Value], index: u32) -> Result<u8, ReadError>
    requires { index < length values.now }
    ensures { Gives result (nth index cr_field (map view values.now)) }
{
    Ok(natural_at(alloc, values, index, 7)? as u8)
}

/// The list of a table.
#[tactic(auto, unfolding(crate::specs::Operands::labels))]
impl Reads<Labels> for Dump {
    ghost reads = { labels };

    fn read(alloc: Global, tree: &Value) -> Result<Labels, ReadError> {
        let values = items(alloc, tree)?;
        if values.is_empty() {
            return Err(ReadError::here(alloc, Cause::OutOfRange));
        }
        list(alloc, tree, MOST_LABELS)
    }
}

#[tactic(auto, unfolding(crate::specs::Operands::compared))]
fn of_comparison(alloc: Global, tree: &Value, op: CmpImmOp) -> Result<i32, ReadError>
    ensures { Gives result (compared op (view tree.now)) }
{
    match op {
        CmpImmOp::Cmpwi => Ok(ranged(alloc, tree, -32768, 32767)? as i32),
        CmpImmOp::Cmplwi => Ok(ranged(alloc, tree, 0, 65535)? as i32),
    }
}

/// The number of a comparison: signed or unsigned, as the operation is.
#[tactic(auto, unfolding(json_tree::specs::Arrays::nth), using(json_tree::proofs::Items::array_tools))]
pub fn compared(alloc: Global, values: &[Value], index: u32, op: CmpImmOp) -> Result<i32, ReadError>
    requires { index < length values.now }
    ensures { Gives result (nth index (compared op) (map view values.now)) }
{
    at_index(
        alloc,
        index,
        of_comparison(alloc, &values[index as usize], op),
    )
}

#[tactic(auto, unfolding(crate::specs::Instructions::two_registers))]
pub fn two_registers(alloc: Global, values: &[Value]) -> Result<(Reg, Reg), ReadError>
    ensures { Gives result (two_registers (map view values.now)) }
{
    counted(alloc, values, 3)?;
    let x = register(alloc, values, 1)?;
    let y = register(alloc, values, 2)?;
    Ok((x, y))
}

#[tactic(auto, unfolding(crate::specs::Instructions::three_registers))]
pub fn three_registers(alloc: Global, values: &[Value]) -> Result<(Reg, Reg, Reg), ReadError>
    ensures { Gives result (three_registers (map view values.now)) }
{
    counted(alloc, values, 4)?;
    let x = register(alloc, values, 1)?;
    let y = register(alloc, values, 2)?;
    let z = register(alloc, values, 3)?;
    Ok((x, y, z))
}

/// A label, or a frame's size in bytes.
#[tactic(auto, unfolding(crate::specs::Instructions::one_number))]
pub fn one_number(alloc: Global, values: &[Value]) -> Result<u32, ReadError>
    ensures { Gives result (one_number (map view values.now)) }
{
    counted(alloc, values, 2)?;
    nth(alloc, values, 1)
}

#[tactic(auto, unfolding(crate::specs::Instructions::one_symbol))]
pub fn one_symbol(alloc: Global, values: &[Value]) -> Result<Name, ReadError>
    ensures { Gives result (one_symbol (map view values.now)) }
{
    counted(alloc, values, 2)?;
    nth(alloc, values, 1)
}

/// A bit of the condition register, and the label for it.
#[tactic(auto, unfolding(crate::specs::Instructions::bit_and_label))]
pub fn bit_and_label(alloc: Global, values: &[Value]) -> Result<(u8, u32), ReadError>
    ensures { Gives result (bit_and_label (map view values.now)) }
{
    counted(alloc, values, 3)?;
    let bit = bit_number(alloc, values, 1)?;
    let label = nth(alloc, values, 2)?;
    Ok((bit, label))
}
