//! The answers for the words of one instruction.

ghost use Rattle.std.specs.Prelude.{◌≡◌, ◌+◌, ◌*◌, ◌<◌, ◌^◌, length, slice_index, is_ok};
ghost use Rattle.ordered_tests.specs.Checks.{first_fault, fault_of};
ghost use Rattle.isa_model.specs.Word.{lo, joined};
ghost use Rattle.code_model.specs.Forms.{instr_length, forms};
ghost use Rattle.code_model.specs.Spelling.{first_word, spells};
ghost use Rattle.code_model.specs.WordChecks.{words_checks};

use crate::instr::instr_fault;
use crate::table::address_of_halves;
use asm_syntax::instr::Instr;
use code_model::spot::Spot;
use layout_file::layout::Layout;

/// Whether the words from an address on are the instruction. The symbol or label that it names has the address `target`.
pub fn match_instr(
    instr: &Instr,
    words: &[u32],
    at: u32,
    target: u32,
    layout: &Layout,
) -> Result<(), Spot>
    requires all { length words.now ≡ instr_length instr.now (first_word words.now) }
    requires at { at + 4 * length words.now < 2 ^ 32 }
    ensures first { fault_of result ≡ first_fault (words_checks layout.now 0 at (forms target instr.now (first_word words.now)) words.now) }
    ensures spelt { is_ok result ≡ spells layout.now at target instr.now words.now }
{
    match instr_fault(layout, 0, at, instr, target, words) {
        Some(spot) => Err(spot),
        None => Ok(()),
    }
}

/// The address of the table of a jump with these five words.
pub fn table_place(words: &[u32]) -> u32
    requires { length words.now ≡ 5 }
    ensures { result ≡ joined (lo (slice_index words.now 1)) (slice_index words.now 2) }
{
    address_of_halves(words[1], words[2])
}
