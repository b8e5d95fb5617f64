//! The words of one instruction. A base register, a bit or a number that a spelling fixes stands in its function.

ghost use Rattle.std.specs.Prelude.{◌≡◌, ◌+◌, ◌*◌, ◌<◌, ◌^◌, [], ◌∷◌, length, pos, nat_le, ◌==◌, if◌then◌else◌};
ghost use Rattle.ordered_tests.specs.Checks.{first_fault};
ghost use Rattle.isa_model.specs.Word.{lo, signed_word};
ghost use Rattle.isa_model.specs.Operands.{is_s16};
ghost use Rattle.isa_model.specs.Instructions.{addi_place, addis_place, ori_place};
ghost use Rattle.ppc_decode.specs.declared.machine.Machine.TheVariants as machine;
ghost use Rattle.code_model.specs.declared.gap.Gap.TheVariants.{Closed, Free};
ghost use Rattle.code_model.specs.Forms.{instr_length, forms, plain_form, alloc_forms, free_forms, word_forms, branch_forms, table_forms};
ghost use Rattle.code_model.specs.Forms.{bit_forms, near, far, is_bc};
ghost use Rattle.code_model.specs.Spelling.{first_word};
ghost use Rattle.code_model.specs.WordChecks.{words_checks, shape_of};

use crate::spelling::words_fault;
use asm_syntax::instr::{Instr, Plain};
use asm_syntax::operations::{AluImmOp, LoadOp, LogImmOp, MoveOp, RotOp};
use asm_syntax::reg::Reg;
use code_model::gap::{Gap, Shape};
use code_model::spot::Spot;
use layout_file::layout::Layout;
use ppc_decode::displacement::{
    displacement_16_between, displacement_16_in, displacement_26_between, displacement_26_in,
    signed_16,
};
use ppc_decode::machine::Machine;
use reloc_match::fields::{half_field, is_addi};
use reloc_match::shape::{closed, plain_shape};
use word_ops::words::{hi, lo};

fn plain_fault(
    layout: &Layout,
    offset: u32,
    at: u32,
    plain: &Plain,
    target: u32,
    words: &[u32],
) -> Option<Spot>
    requires len { length words.now ≡ 1 }
    requires offset { offset + 4 * length words.now < 2 ^ 32 }
    requires at { at + 4 * length words.now < 2 ^ 32 }
    ensures { result ≡ first_fault (words_checks layout.now offset at (plain_form target plain.now ∷ []) words.now) }
{
    match words {
        [w] => words_fault(
            layout,
            offset,
            at,
            &[plain_shape(plain, at, target, *w)],
            words,
        ),
        _ => unreachable!(),
    }
}

fn addi(d: u8, a: u8, n: i32) -> Shape
    ensures { result ≡ record { gap = Closed; found = machine.AluImm addi_place d a n; right = machine.AluImm addi_place d a n } }
{
    closed(Machine::AluImm(AluImmOp::Addi.place(), d, a, n))
}

fn addis(d: u8, a: u8, n: i32) -> Shape
    ensures { result ≡ record { gap = Closed; found = machine.AluImm addis_place d a n; right = machine.AluImm addis_place d a n } }
{
    closed(Machine::AluImm(AluImmOp::Addis.place(), d, a, n))
}

fn ori(a: u8, s: u8, n: u32) -> Shape
    requires { n < 2 ^ 16 }
    ensures { result ≡ record { gap = Closed; found = machine.LogImm ori_place a s (pos n); right = machine.LogImm ori_place a s (pos n) } }
{
    closed(Machine::LogImm(LogImmOp::Ori.place(), a, s, n as i32))
}

fn alloc_fault(layout: &Layout, offset: u32, at: u32, n: u32, words: &[u32]) -> Option<Spot>
    requires len { length words.now ≡ (if nat_le n 32768 then 1 else 3) }
    requires n { n < 2 ^ 32 }
    requires offset { offset + 4 * length words.now < 2 ^ 32 }
    requires at { at + 4 * length words.now < 2 ^ 32 }
    ensures { result ≡ first_fault (words_checks layout.now offset at (alloc_forms n) words.now) }
{
    let size = 0u32.wrapping_sub(n);
    match words {
        [_] => words_fault(
            layout,
            offset,
            at,
            &[closed(Machine::Stwu(1, signed_16(lo(size)), 1))],
            words,
        ),
        [_, _, _] => words_fault(
            layout,
            offset,
            at,
            &[
                addis(12, 0, signed_16(hi(size))),
                ori(12, 12, lo(size)),
                closed(Machine::Stwux(1, 1, 12)),
            ],
            words,
        ),
        _ => unreachable!(),
    }
}

fn free_fault(layout: &Layout, offset: u32, at: u32, n: u32, words: &[u32]) -> Option<Spot>
    requires len { length words.now ≡ 1 }
    requires offset { offset + 4 * length words.now < 2 ^ 32 }
    requires at { at + 4 * length words.now < 2 ^ 32 }
    ensures { result ≡ first_fault (words_checks layout.now offset at (free_forms n (first_word words.now)) words.now) }
{
    match words {
        [w] => {
            if is_addi(*w) && n <= 32767 {
                words_fault(layout, offset, at, &[addi(1, 1, n as i32)], words)
            } else {
                words_fault(
                    layout,
                    offset,
                    at,
                    &[closed(Machine::Load(LoadOp::Lwz.place(), 1, 0, 1))],
                    words,
                )
            }
        }
        _ => unreachable!(),
    }
}

fn imm_fault(layout: &Layout, offset: u32, at: u32, r: Reg, n: u32, words: &[u32]) -> Option<Spot>
    requires len { length words.now ≡ (if is_s16 (signed_word n) then 1 else if lo n == 0 then 1 else 2) }
    requires offset { offset + 4 * length words.now < 2 ^ 32 }
    requires at { at + 4 * length words.now < 2 ^ 32 }
    ensures { result ≡ first_fault (words_checks layout.now offset at (word_forms r n) words.now) }
{
    let r = r.number();
    match words {
        [_] => {
            if n < 0x8000 || n >= 0xffff_8000 {
                words_fault(layout, offset, at, &[addi(r, 0, n.cast_signed())], words)
            } else {
                words_fault(layout, offset, at, &[addis(r, 0, signed_16(hi(n)))], words)
            }
        }
        [_, _] => words_fault(
            layout,
            offset,
            at,
            &[addis(r, 0, signed_16(hi(n))), ori(r, r, lo(n))],
            words,
        ),
        _ => unreachable!(),
    }
}

fn near(bo: u8, bit: u8, at: u32, target: u32, word: u32) -> Shape
    ensures { result ≡ shape_of at (near target (machine.Bc bo bit)) word }
{
    Shape {
        gap: Gap::Near(target),
        found: Machine::Bc(bo, bit, displacement_16_in(word)),
        right: Machine::Bc(bo, bit, displacement_16_between(at, target)),
    }
}

fn far(at: u32, target: u32, word: u32) -> Shape
    ensures { result ≡ shape_of at (far target machine.B) word }
{
    Shape {
        gap: Gap::Far(target),
        found: Machine::B(displacement_26_in(word)),
        right: Machine::B(displacement_26_between(at, target)),
    }
}

/// A branch on a bit with BO `here`, or one over a jump with BO `over`.
fn branch_fault(
    layout: &Layout,
    offset: u32,
    at: u32,
    here: u8,
    over: u8,
    bit: u8,
    target: u32,
    words: &[u32],
) -> Option<Spot>
    requires len { length words.now ≡ (if is_bc over (first_word words.now) then 2 else 1) }
    requires offset { offset + 4 * length words.now < 2 ^ 32 }
    requires at { at + 4 * length words.now < 2 ^ 32 }
    ensures { result ≡ first_fault
        (words_checks layout.now offset at (branch_forms here over bit target (first_word words.now)) words.now) }
{
    match words {
        [w] => words_fault(
            layout,
            offset,
            at,
            &[near(here, bit, at, target, *w)],
            words,
        ),
        [_, second] => words_fault(
            layout,
            offset,
            at,
            &[
                closed(Machine::Bc(over, bit, 8)),
                far(at + 4, target, *second),
            ],
            words,
        ),
        _ => unreachable!(),
    }
}

fn free(found: Machine, right: Machine) -> Shape
    ensures { result ≡ record { gap = Free; found = found; right = right } }
{
    Shape {
        gap: Gap::Free,
        found,
        right,
    }
}

fn table_fault(layout: &Layout, offset: u32, at: u32, r: Reg, words: &[u32]) -> Option<Spot>
    requires len { length words.now ≡ 5 }
    requires offset { offset + 4 * length words.now < 2 ^ 32 }
    requires at { at + 4 * length words.now < 2 ^ 32 }
    ensures { result ≡ first_fault (words_checks layout.now offset at (table_forms r) words.now) }
{
    match words {
        [_, second, third, _, _] => words_fault(
            layout,
            offset,
            at,
            &[
                closed(Machine::Rot(RotOp::Rlwinm.place(), 12, r.number(), 2, 0, 29)),
                free(
                    Machine::AluImm(AluImmOp::Addis.place(), 12, 12, half_field(*second)),
                    Machine::AluImm(AluImmOp::Addis.place(), 12, 12, 0),
                ),
                free(
                    Machine::Load(LoadOp::Lwz.place(), 12, half_field(*third), 12),
                    Machine::Load(LoadOp::Lwz.place(), 12, 0, 12),
                ),
                closed(Machine::Move(MoveOp::Mtctr.place(), 12)),
                closed(Machine::Bctr),
            ],
            words,
        ),
        _ => unreachable!(),
    }
}

fn bit_fault(layout: &Layout, offset: u32, at: u32, r: Reg, bit: u8, words: &[u32]) -> Option<Spot>
    requires len { length words.now ≡ 2 }
    requires offset { offset + 4 * length words.now < 2 ^ 32 }
    requires at { at + 4 * length words.now < 2 ^ 32 }
    ensures { result ≡ first_fault (words_checks layout.now offset at (bit_forms r bit) words.now) }
{
    let r = r.number();
    match words {
        [_, _] => words_fault(
            layout,
            offset,
            at,
            &[
                closed(Machine::Mfcr(r)),
                closed(Machine::Rot(RotOp::Rlwinm.place(), r, r, (bit % 32 + 1) % 32, 31, 31)),
            ],
            words,
        ),
        _ => unreachable!(),
    }
}

/// The first fault of an instruction's words. What it names has the address `target`.
#[tactic(auto, unfolding(code_model::specs::Forms::instr_length, code_model::specs::Forms::forms))]
pub fn instr_fault(
    layout: &Layout,
    offset: u32,
    at: u32,
    instr: &Instr,
    target: u32,
    words: &[u32],
) -> Option<Spot>
    requires len { length words.now ≡ instr_length instr.now (first_word words.now) }
    requires offset { offset + 4 * length words.now < 2 ^ 32 }
    requires at { at + 4 * length words.now < 2 ^ 32 }
    ensures { result ≡ first_fault (words_checks layout.now offset at (forms target instr.now (first_word words.now)) words.now) }
{
    match instr {
        Instr::Plain(plain) => plain_fault(layout, offset, at, plain, target, words),
        Instr::AllocFrame(n) => alloc_fault(layout, offset, at, *n, words),
        Instr::FreeFrame(n) => free_fault(layout, offset, at, *n, words),
        Instr::Imm(r, n) => imm_fault(layout, offset, at, *r, *n, words),
        Instr::Bt(bit, _) => branch_fault(layout, offset, at, 12, 4, *bit, target, words),
        Instr::Bf(bit, _) => branch_fault(layout, offset, at, 4, 12, *bit, target, words),
        Instr::Btbl(r, _) => table_fault(layout, offset, at, *r, words),
        Instr::MfcrBit(r, bit) => bit_fault(layout, offset, at, *r, *bit, words),
        Instr::Label(_) | Instr::Cfi | Instr::Annot => None,
    }
}
