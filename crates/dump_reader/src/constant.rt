//! Constants.

ghost use Rattle.std.specs.Prelude.{◌≡◌, ◌<◌, length, map};
ghost use Rattle.serde_json.specs.View.{view};
ghost use Rattle.json_tree.specs.Answers.{Gives};
ghost use Rattle.json_tree.specs.Arrays.{nth};
ghost use Rattle.json_tree.specs.Tables.{row};
ghost use Rattle.dump_reader.specs.Operands.{part_of, symbolic, short, constant, alu_constant, displacement};

use crate::words::chosen_word;
use asm_syntax::instr::Const;
use asm_syntax::name::Name;
use asm_syntax::operations::AluImmOp;
use json_tree::array::{counted, items, nth};
use json_tree::fault::ReadError;
use json_tree::number::ranged;
use json_tree::tree::at_index;
use serde_json::Value;
use std::alloc::Global;

/// A part of a symbol's address.
#[derive(Clone, Copy, Debug, PartialEq, Eq, Drop)]
pub enum Part {
    Lo,
    Ha,
    Sda,
}

/// Of addi, loads and stores.
static LOW_PARTS: [(&str, Part); 2] = [("lo", Part::Lo), ("sda", Part::Sda)];

/// Of addis.
static HIGH_PARTS: [(&str, Part); 1] = [("ha", Part::Ha)];

fn part_of(part: Part, symbol: Name, offset: i32) -> Const
    ensures { result ≡ part_of part symbol offset }
{
    match part {
        Part::Lo => Const::Lo(symbol, offset),
        Part::Ha => Const::Ha(symbol, offset),
        Part::Sda => Const::Sda(symbol, offset),
    }
}

#[tactic(auto, unfolding(crate::specs::Operands::symbolic))]
fn symbolic(alloc: Global, tree: &Value, taken: &[(&str, Part)]) -> Result<Const, ReadError>
    ensures { Gives result (symbolic (map row taken.now) (view tree.now)) }
{
    let values = items(alloc, tree)?;
    let part = chosen_word(alloc, values, taken)?;
    counted(alloc, values, 3)?;
    let symbol = nth(alloc, values, 1)?;
    let offset = nth(alloc, values, 2)?;
    Ok(part_of(part, symbol, offset))
}

#[tactic(auto, unfolding(crate::specs::Operands::short))]
fn short(alloc: Global, tree: &Value) -> Result<Const, ReadError>
    ensures { Gives result (short (view tree.now)) }
{
    Ok(Const::Int(ranged(alloc, tree, -32768, 32767)? as i32))
}

/// A number, or one of the parts that the instruction takes.
#[tactic(auto, unfolding(crate::specs::Operands::constant))]
fn constant(alloc: Global, tree: &Value, taken: &[(&str, Part)]) -> Result<Const, ReadError>
    ensures { Gives result (constant (map row taken.now) (view tree.now)) }
{
    if tree.is_array() {
        symbolic(alloc, tree, taken)
    } else {
        short(alloc, tree)
    }
}

#[tactic(auto, unfolding(crate::specs::Operands::alu_constant))]
fn of_alu(alloc: Global, tree: &Value, op: AluImmOp) -> Result<Const, ReadError>
    ensures { Gives result (alu_constant op (view tree.now)) }
{
    match op {
        AluImmOp::Addi => constant(alloc, tree, &LOW_PARTS),
        AluImmOp::Addis => constant(alloc, tree, &HIGH_PARTS),
        _ => short(alloc, tree),
    }
}

/// The constant of an arithmetic instruction.
#[tactic(auto, unfolding(json_tree::specs::Arrays::nth), using(json_tree::proofs::Items::array_tools))]
pub fn alu_constant(
    alloc: Global,
    values: &[Value],
    index: u32,
    op: AluImmOp,
) -> Result<Const, ReadError>
    requires { index < length values.now }
    ensures { Gives result (nth index (alu_constant op) (map view values.now)) }
{
    at_index(alloc, index, of_alu(alloc, &values[index as usize], op))
}

/// The displacement of a load or a store.
#[tactic(auto, unfolding(json_tree::specs::Arrays::nth), using(json_tree::proofs::Items::array_tools))]
pub fn displacement(alloc: Global, values: &[Value], index: u32) -> Result<Const, ReadError>
    requires { index < length values.now }
    ensures { Gives result (nth index displacement (map view values.now)) }
{
    at_index(
        alloc,
        index,
        constant(alloc, &values[index as usize], &LOW_PARTS),
    )
}
