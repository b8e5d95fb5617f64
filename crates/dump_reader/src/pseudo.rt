//! Pseudo-instructions.

ghost use Rattle.std.specs.Prelude.{◌≡◌, map};
ghost use Rattle.serde_json.specs.View.{view};
ghost use Rattle.json_tree.specs.Answers.{Gives};
ghost use Rattle.dump_reader.specs.Instructions.{imm, btbl, mfcr_bit, pseudo};

use crate::operands::{bit_and_label, bit_number, one_number, register};
use crate::profile::Dump;
use asm_syntax::instr::{Instr, Labels};
use json_tree::array::{counted, nth, nth_by};
use json_tree::fault::ReadError;
use json_tree::number::Word;
use mnemonics::PseudoForm;
use serde_json::Value;
use std::alloc::Global;

#[tactic(auto, unfolding(crate::specs::Instructions::imm))]
fn imm(alloc: Global, values: &[Value]) -> Result<Instr, ReadError>
    ensures { Gives result (imm (map view values.now)) }
{
    counted(alloc, values, 3)?;
    let r = register(alloc, values, 1)?;
    let n: Word = nth(alloc, values, 2)?;
    Ok(Instr::Imm(r, n.value()))
}

#[tactic(auto, unfolding(crate::specs::Instructions::btbl))]
fn btbl(alloc: Global, values: &[Value]) -> Result<Instr, ReadError>
    ensures { Gives result (btbl (map view values.now)) }
{
    counted(alloc, values, 3)?;
    let r = register(alloc, values, 1)?;
    let labels = nth_by::<Dump, Labels>(alloc, values, 2)?;
    Ok(Instr::Btbl(r, labels))
}

#[tactic(auto, unfolding(crate::specs::Instructions::mfcr_bit))]
fn mfcr_bit(alloc: Global, values: &[Value]) -> Result<Instr, ReadError>
    ensures { Gives result (mfcr_bit (map view values.now)) }
{
    counted(alloc, values, 3)?;
    let r = register(alloc, values, 1)?;
    let bit = bit_number(alloc, values, 2)?;
    Ok(Instr::MfcrBit(r, bit))
}

#[tactic(auto, unfolding(crate::specs::Instructions::pseudo))]
pub fn pseudo(alloc: Global, form: PseudoForm, values: &[Value]) -> Result<Instr, ReadError>
    ensures { Gives result (pseudo form (map view values.now)) }
{
    match form {
        PseudoForm::AllocFrame => Ok(Instr::AllocFrame(one_number(alloc, values)?)),
        PseudoForm::FreeFrame => Ok(Instr::FreeFrame(one_number(alloc, values)?)),
        PseudoForm::Imm => imm(alloc, values),
        PseudoForm::Bt => {
            let (bit, label) = bit_and_label(alloc, values)?;
            Ok(Instr::Bt(bit, label))
        }
        PseudoForm::Bf => {
            let (bit, label) = bit_and_label(alloc, values)?;
            Ok(Instr::Bf(bit, label))
        }
        PseudoForm::Btbl => btbl(alloc, values),
        PseudoForm::MfcrBit => mfcr_bit(alloc, values),
        PseudoForm::Label => Ok(Instr::Label(one_number(alloc, values)?)),
        PseudoForm::Cfi => Ok(Instr::Cfi),
        PseudoForm::Annot => Ok(Instr::Annot),
    }
}
