//! Instructions.

ghost use Rattle.std.specs.Prelude.{◌≡◌, map};
ghost use Rattle.serde_json.specs.View.{view};
ghost use Rattle.json_tree.specs.Answers.{Gives};
ghost use Rattle.mnemonics.specs.Mnemonics.{mnemonics};
ghost use Rattle.dump_reader.specs.Words.{allowed_word};
ghost use Rattle.dump_reader.specs.Instructions.{operands, instr};

use crate::branch::jump;
use crate::plain;
use crate::profile::Dump;
use crate::pseudo::pseudo;
use crate::words::allowed_word;
use asm_syntax::instr::Instr;
use json_tree::array::{chosen_by, items};
use json_tree::fault::ReadError;
use json_tree::tree::Reads;
use mnemonics::{Form, mnemonics};
use serde_json::Value;
use std::alloc::Global;

/// The mnemonic of an instruction.
impl Reads<Form> for Dump {
    ghost reads = { allowed_word mnemonics };

    fn read(alloc: Global, tree: &Value) -> Result<Form, ReadError> {
        allowed_word(alloc, tree, mnemonics())
    }
}

#[tactic(auto, unfolding(crate::specs::Instructions::operands))]
fn operands(alloc: Global, form: Form, values: &[Value]) -> Result<Instr, ReadError>
    ensures { Gives result (operands form (map view values.now)) }
{
    match form {
        Form::AluImm(op) => plain::alu_imm(alloc, op, values),
        Form::LogImm(op) => plain::log_imm(alloc, op, values),
        Form::Alu(op) => plain::alu(alloc, op, values),
        Form::Alu2(op) => plain::alu2(alloc, op, values),
        Form::Log(op) => plain::log(alloc, op, values),
        Form::Log2(op) => plain::log2(alloc, op, values),
        Form::Srawi => plain::srawi(alloc, values),
        Form::Rot(op) => plain::rot(alloc, op, values),
        Form::Load(op) => plain::load(alloc, op, values),
        Form::Store(op) => plain::store(alloc, op, values),
        Form::LoadX(op) => plain::load_x(alloc, op, values),
        Form::StoreX(op) => plain::store_x(alloc, op, values),
        Form::Cmp(op) => plain::cmp(alloc, op, values),
        Form::CmpImm(op) => plain::cmp_imm(alloc, op, values),
        Form::CrBit(op) => plain::cr_bit(alloc, op, values),
        Form::Move(op) => plain::move_special(alloc, op, values),
        Form::Bar(op) => plain::bar(alloc, op, values),
        Form::Jump(form) => jump(alloc, form, values),
        Form::Pseudo(form) => pseudo(alloc, form, values),
    }
}

#[tactic(auto, unfolding(crate::specs::Instructions::instr))]
impl Reads<Instr> for Dump {
    ghost reads = { instr };

    fn read(alloc: Global, tree: &Value) -> Result<Instr, ReadError> {
        let values = items(alloc, tree)?;
        let form = chosen_by::<Dump, Form>(alloc, values)?;
        operands(alloc, form, values)
    }
}
