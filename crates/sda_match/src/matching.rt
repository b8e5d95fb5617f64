//! The answer for one instruction.

ghost use Rattle.std.specs.Prelude.{◌≡◌, ℕ, true, option_map, is_ok};
ghost use Rattle.ordered_tests.specs.Checks.{first_fault, fault_of};
ghost use Rattle.asm_syntax.specs.Instructions.{has_small_data};
ghost use Rattle.code_model.specs.Forms.{plain_form};
ghost use Rattle.code_model.specs.Spelling.{word_spells};
ghost use Rattle.code_model.specs.WordChecks.{shape_of, shape_checks};
ghost use Rattle.sda_match.specs.Diffs.{sda_diff_of};

use crate::diff::SdaDiff;
use crate::word::word_fault;
use asm_syntax::instr::Plain;
use code_model::spot::Spot;
use layout_file::layout::Layout;
use reloc_match::shape::plain_shape;

#[tactic(auto, using(crate::proofs::Anywhere::shape_anywhere))]
fn plain_fault(plain: &Plain, word: u32, target: u32, layout: &Layout) -> Option<Spot>
    requires { has_small_data plain.now ≡ true }
    ensures { (at : ℕ) → result ≡ first_fault (shape_checks layout.now 0 at (shape_of at (plain_form target plain.now) word) word) }
{
    let shape = plain_shape(plain, 0, target, word);
    word_fault(layout, 0, 0, &shape, word)
}

/// Whether the word is the instruction, which has a small-data constant, wherever it stands. The symbol of the constant has the
/// address `target`.
pub fn match_sda(instr: &Plain, word: u32, target: u32, layout: &Layout) -> Result<(), SdaDiff>
    requires { has_small_data instr.now ≡ true }
    ensures first { (at : ℕ) → fault_of result ≡ option_map sda_diff_of
        (first_fault (shape_checks layout.now 0 at (shape_of at (plain_form target instr.now) word) word)) }
    ensures spelt { (at : ℕ) → is_ok result ≡ word_spells layout.now at (plain_form target instr.now) word }
{
    match plain_fault(instr, word, target, layout) {
        None => Ok(()),
        Some(spot) => Err(SdaDiff {
            rule: spot.rule,
            item: spot.item,
            wanted: spot.wanted,
            found: spot.found,
        }),
    }
}
