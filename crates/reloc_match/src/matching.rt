//! The answers for one instruction.

ghost use Rattle.std.specs.Prelude.{◌≡◌, ◌<◌, ℕ, false, option_map, is_ok};
ghost use Rattle.ordered_tests.specs.Checks.{first_fault, fault_of};
ghost use Rattle.layout_model.specs.Layouts.{Layout};
ghost use Rattle.asm_syntax.specs.Instructions.{has_small_data};
ghost use Rattle.code_model.specs.Forms.{instr_length, plain_form};
ghost use Rattle.code_model.specs.Spelling.{agrees, word_spells};
ghost use Rattle.code_model.specs.WordChecks.{shape_of, shape_checks};
ghost use Rattle.reloc_match.specs.Diffs.{diff_of};

use crate::diff::Diff;
use crate::fields::is_bc;
use crate::shape::plain_shape;
use crate::word::{agrees_in, fixed_fault, gap_fault};
use asm_syntax::instr::{Instr, Plain};
use code_model::spot::Spot;
use layout_file::layout::Layout;

/// How many words an instruction has, by the first of them.
#[tactic(auto, unfolding(code_model::specs::Forms::instr_length))]
pub fn length(instr: &Instr, first: u32) -> u32
    ensures value { result ≡ instr_length instr.now first }
    ensures few { result < 6 }
{
    match instr {
        Instr::Plain(_) | Instr::FreeFrame(_) => 1,
        Instr::AllocFrame(n) => if *n <= 32768 { 1 } else { 3 },
        Instr::Imm(_, n) => {
            if *n < 0x8000 || *n >= 0xffff_8000 || *n % 0x1_0000 == 0 {
                1
            } else {
                2
            }
        }
        Instr::Bt(_, _) => if is_bc(4, first) { 2 } else { 1 },
        Instr::Bf(_, _) => if is_bc(12, first) { 2 } else { 1 },
        Instr::Btbl(_, _) => 5,
        Instr::MfcrBit(_, _) => 2,
        Instr::Label(_) | Instr::Cfi | Instr::Annot => 0,
    }
}

fn plain_fault(plain: &Plain, word: u32, at: u32, target: u32) -> Option<Spot>
    requires { has_small_data plain.now ≡ false }
    ensures { (l : Layout) → result ≡ first_fault (shape_checks l 0 at (shape_of at (plain_form target plain.now) word) word) }
{
    let shape = plain_shape(plain, at, target, word);
    match fixed_fault(0, &shape, word) {
        Some(spot) => Some(spot),
        None => gap_fault(0, at, shape.gap, &shape.right, word),
    }
}

/// Whether the word at an address is the instruction, which has no small-data constant. The symbol or label that the
/// instruction names has the address `target`, which is not read where it names none.
pub fn match_plain(instr: &Plain, word: u32, at: u32, target: u32) -> Result<(), Diff>
    requires { has_small_data instr.now ≡ false }
    ensures first { (l : Layout) → fault_of result
        ≡ option_map diff_of (first_fault (shape_checks l 0 at (shape_of at (plain_form target instr.now) word) word)) }
    ensures spelt { (l : Layout) → is_ok result ≡ word_spells l at (plain_form target instr.now) word }
{
    match plain_fault(instr, word, at, target) {
        None => Ok(()),
        Some(spot) => Err(Diff {
            rule: spot.rule,
            wanted: spot.wanted,
            found: spot.found,
        }),
    }
}

/// Whether what the word at an address has for the instruction's symbol or label leads to `target`, whatever its other fields are.
pub fn agrees(instr: &Plain, word: u32, at: u32, target: u32, layout: &Layout) -> bool
    ensures { result ≡ agrees layout.now at (plain_form target instr.now).gap word }
{
    let shape = plain_shape(instr, at, target, word);
    agrees_in(layout, at, shape.gap, word)
}
