//! Branches and the trap.

ghost use Rattle.std.specs.Prelude.{◌≡◌, map};
ghost use Rattle.serde_json.specs.View.{view};
ghost use Rattle.json_tree.specs.Answers.{Gives};
ghost use Rattle.dump_reader.specs.Instructions.{jump, without_operands};

use crate::operands::{one_number, one_symbol};
use asm_syntax::instr::{Instr, Jump, Plain};
use json_tree::array::counted;
use json_tree::fault::ReadError;
use mnemonics::JumpForm;
use serde_json::Value;
use std::alloc::Global;

/// A jump without operands.
fn alone(alloc: Global, jump: Jump, values: &[Value]) -> Result<Instr, ReadError>
    ensures { Gives result (without_operands jump (map view values.now)) }
{
    counted(alloc, values, 1)?;
    Ok(Instr::Plain(Plain::Jump(jump)))
}

#[tactic(auto, unfolding(crate::specs::Instructions::jump))]
pub fn jump(alloc: Global, form: JumpForm, values: &[Value]) -> Result<Instr, ReadError>
    ensures { Gives result (jump form (map view values.now)) }
{
    let jump = match form {
        JumpForm::B => Jump::B(one_number(alloc, values)?),
        JumpForm::Bs => Jump::Bs(one_symbol(alloc, values)?),
        JumpForm::Bl => Jump::Bl(one_symbol(alloc, values)?),
        JumpForm::Bdnz => Jump::Bdnz(one_number(alloc, values)?),
        JumpForm::Blr => return alone(alloc, Jump::Blr, values),
        JumpForm::Bctr => return alone(alloc, Jump::Bctr, values),
        JumpForm::Bctrl => return alone(alloc, Jump::Bctrl, values),
        JumpForm::Trap => return alone(alloc, Jump::Trap, values),
    };
    Ok(Instr::Plain(Plain::Jump(jump)))
}
