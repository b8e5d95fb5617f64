//! The shapes of functions.

ghost use Rattle.std.specs.Prelude.{◌≡◌, ◌≤◌, length, take, IfOk, IsOk};
ghost use Rattle.std.specs.List.{list_any};
ghost use Rattle.isa_model.specs.Word.{wrapped};
ghost use Rattle.ordered_tests.specs.Checks.{fault_of, first_fault};
ghost use Rattle.asm_syntax.specs.Instructions.{has_label, has_words};
ghost use Rattle.asm_shapes.specs.Shapes.{
  HasShape,
  code_tests,
  function_tests,
  instr_tests,
  is_reserved,
  labels_stand,
  repeats_label,
  writes_reserved,
};

use crate::labels::{IndexedCode, Labelled, Searched};
use crate::operands::{frame_fits, instr_in_range};
use asm_syntax::instr::{Function, Instr};
use asm_syntax::reg::Reg;
use asm_syntax::shape::ShapeError;
use std::alloc::{AllocError, Global};

fn is_reserved(r: Reg) -> bool
    ensures { result ≡ is_reserved r }
{
    let r = r.number();
    r == 1 || r == 2 || r == 13
}

fn writes_reserved(instr: &Instr) -> bool
    ensures { result ≡ writes_reserved instr.now }
{
    match instr.target_register() {
        Some(r) => is_reserved(r),
        None => false,
    }
}

fn has_label<C: Labelled>(code: &C, label: u32) -> bool
    ensures { result ≡ has_label (C.code code.now) label }
{
    code.place(label).is_some()
}

/// Whether the label stands before the instruction with the number `at`.
fn has_label_before<C: Labelled>(code: &C, at: usize, label: u32) -> bool
    ensures { result ≡ has_label (take at (C.code code.now)) label }
{
    match code.place(label) {
        Some(first) => first < at,
        None => false,
    }
}

fn labels_stand<C: Labelled>(code: &C, instr: &Instr) -> bool
    ensures { result ≡ labels_stand (C.code code.now) instr.now }
{
    instr
        .labels_named()
        .iter()
        .all(|label| has_label(code, *label))
}

fn repeats_label<C: Labelled>(code: &C, at: usize, instr: &Instr) -> bool
    ensures { result ≡ repeats_label (take at (C.code code.now)) instr.now }
{
    match instr {
        Instr::Label(label) => has_label_before(code, at, *label),
        _ => false,
    }
}

fn number_of(at: usize) -> u32
    ensures { result ≡ wrapped at }
{
    (at % 0x1_0000_0000) as u32
}

fn check_instr<C: Labelled>(code: &C, at: usize, instr: &Instr) -> Result<(), ShapeError>
    ensures { fault_of result ≡ first_fault (instr_tests (C.code code.now) at instr.now) }
{
    let number = number_of(at);
    if writes_reserved(instr) {
        return Err(ShapeError::WritesReserved(number));
    }
    if !labels_stand(code, instr) {
        return Err(ShapeError::NoLabel(number));
    }
    if repeats_label(code, at, instr) {
        return Err(ShapeError::TwoLabels(number));
    }
    if !frame_fits(instr) {
        return Err(ShapeError::BadFrame(number));
    }
    if !instr_in_range(instr) {
        return Err(ShapeError::BadRange(number));
    }
    Ok(())
}

fn check_code<C: Labelled>(code: &C) -> Result<(), ShapeError>
    ensures { fault_of result ≡ first_fault (code_tests (C.code code.now)) }
{
    let instrs = code.code();
    for (at, instr) in instrs.iter().enumerate() {
        check_instr(code, at, instr)?;
    }
    Ok(())
}

fn any_has_words(code: &[Instr]) -> bool
    ensures { result ≡ list_any has_words code.now }
{
    code.iter().any(|instr| instr.has_words())
}

fn check_function<C: Labelled>(code: &C) -> Result<(), ShapeError>
    ensures { fault_of result ≡ first_fault (function_tests (C.code code.now)) }
{
    if !any_has_words(code.code()) {
        return Err(ShapeError::Empty(0));
    }
    check_code(code)
}

/// The first fault of a function: that it has no words, else the fault of its first instruction that has one, and there the one with
/// the least number. Since it takes no memory, it searches the code for each label: the time grows with the square of the code's length.
#[tactic(auto, using(crate::proofs::ShapeLemmas::shape_of))]
pub fn valid_function(f: &Function) -> Result<(), ShapeError>
    ensures fault { fault_of result ≡ first_fault (function_tests f.now.code) }
    ensures shape { IsOk result → HasShape f.now.code }
{
    check_function(&Searched::new(f.code.items()))
}

/// The fault that `valid_function` answers, if there is one. It looks labels up in an ordered map, so the time is near linear in the
/// instructions and the labels that they name.
#[tactic(auto, using(crate::proofs::ShapeLemmas::shape_of))]
pub fn function_fault(alloc: Global, f: &Function) -> Result<Option<ShapeError>, AllocError>
    ensures fault { IfOk result (λ fault. fault ≡ first_fault (function_tests f.now.code)) }
    ensures shape { IfOk result (λ fault. fault ≡ None → HasShape f.now.code) }
{
    let code = IndexedCode::new(alloc, f.code.items())?;
    Ok(check_function(&code).err())
}
