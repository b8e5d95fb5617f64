//! The first fault of one word.

ghost use Rattle.std.specs.Prelude.{◌≡◌, ◌==◌, if◌then◌else◌, ℕ, false, Some, None};
ghost use Rattle.std.specs.Option.{option_or};
ghost use Rattle.ordered_tests.specs.Checks.{first_fault};
ghost use Rattle.layout_model.specs.Layouts.{Layout};
ghost use Rattle.asm_syntax.specs.declared.rule.Rule.TheVariants as rules;
ghost use Rattle.code_model.specs.Spelling.{agrees};
ghost use Rattle.code_model.specs.WordChecks.{spot, mended_instruction, gap_checks, shape_checks};
ghost use Rattle.reloc_match.specs.Gaps.{needs_layout};

use crate::fields::{address_plus, base_field};
use crate::small_data::reaches;
use asm_syntax::rule::Rule;
use code_model::gap::{Gap, Shape};
use code_model::spot::Spot;
use layout_file::layout::Layout;
use ppc_decode::displacement::{displacement_16_in, displacement_26_in};
use ppc_decode::encoding::{is_word, word_or_zero};
use ppc_decode::machine::Machine;
use ppc_decode::text::has_mnemonic_of;

pub fn fault(rule: Rule, offset: u32, item: u32, wanted: u32, found: u32) -> Option<Spot>
    ensures { result ≡ Some (spot rule offset item wanted found) }
{
    Some(Spot {
        rule,
        offset,
        item,
        wanted,
        found,
    })
}

/// Whether what a word has in a gap is what belongs there, whatever its other fields are.
pub fn agrees_in(layout: &Layout, at: u32, gap: Gap, word: u32) -> bool
    ensures { result ≡ agrees layout.now at gap word }
{
    match gap {
        Gap::Closed | Gap::Free => true,
        Gap::Half(half) => word & 0xffff == half,
        Gap::SmallData(a) => reaches(layout, base_field(word), word & 0xffff, a),
        Gap::Near(t) => address_plus(at, displacement_16_in(word)) == t,
        Gap::Far(t) => address_plus(at, displacement_26_in(word)) == t,
    }
}

fn branch_fault(offset: u32, t: u32, reached: u32) -> Option<Spot>
    ensures { result ≡ (if reached == t then None else Some (spot rules.Branch offset 0 t reached)) }
{
    if reached == t {
        None
    } else {
        fault(Rule::Branch, offset, 0, t, reached)
    }
}

/// The fault in a gap that is judged without a layout.
pub fn gap_fault(offset: u32, at: u32, gap: Gap, right: &Machine, word: u32) -> Option<Spot>
    requires { needs_layout gap ≡ false }
    ensures { (l : Layout) → result ≡ first_fault (gap_checks l offset at gap right.now word) }
{
    match gap {
        Gap::Closed | Gap::Free => None,
        Gap::Half(half) if word & 0xffff == half => None,
        Gap::Half(_) => fault(Rule::Half, offset, 0, word_or_zero(right), word),
        Gap::Near(t) => branch_fault(offset, t, address_plus(at, displacement_16_in(word))),
        Gap::Far(t) => branch_fault(offset, t, address_plus(at, displacement_26_in(word))),
        Gap::SmallData(_) => unreachable!(),
    }
}

/// The instruction of the wanted word, where the mnemonic is right.
fn mended(shape: &Shape) -> Machine
    ensures { result ≡ mended_instruction shape.now.gap shape.now.found shape.now.right }
{
    match shape.gap {
        Gap::SmallData(_) | Gap::Free => shape.found,
        _ => shape.right,
    }
}

/// The fault of a word in its opcode or in the fields round its gap. A right word is not decoded.
#[tactic(auto, using(ppc_decode::proofs::Decoded::own_mnemonic), unfolding(code_model::specs::WordChecks::shape_checks))]
pub fn fixed_fault(offset: u32, shape: &Shape, word: u32) -> Option<Spot>
    ensures { (l : Layout) (at : ℕ) → first_fault (shape_checks l offset at shape.now word)
        ≡ option_or result (first_fault (gap_checks l offset at shape.now.gap shape.now.right word)) }
{
    if is_word(word, &shape.found) {
        None
    } else if has_mnemonic_of(&shape.found, word) {
        fault(Rule::Field, offset, 0, word_or_zero(&mended(shape)), word)
    } else {
        fault(Rule::Opcode, offset, 0, word_or_zero(&shape.right), word)
    }
}
