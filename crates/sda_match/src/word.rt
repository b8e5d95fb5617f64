//! The first fault of one word, small data included.

ghost use Rattle.std.specs.Prelude.{◌≡◌};
ghost use Rattle.ordered_tests.specs.Checks.{first_fault};
ghost use Rattle.code_model.specs.WordChecks.{gap_checks, shape_checks, small_data_checks};

use crate::area::{is_in_small_data, register_at};
use asm_syntax::rule::Rule;
use code_model::gap::{Gap, Shape};
use code_model::spot::Spot;
use layout_file::layout::Layout;
use ppc_decode::machine::Machine;
use reloc_match::fields::base_field;
use reloc_match::small_data::{reaches, small_data_address, small_data_base};
use reloc_match::word::{fault, fixed_fault, gap_fault};

fn small_data_fault(layout: &Layout, offset: u32, a: u32, r: u8, half: u32) -> Option<Spot>
    ensures { result ≡ first_fault (small_data_checks layout.now offset a r half) }
{
    if small_data_base(layout, r).is_none() {
        fault(Rule::Sda, offset, 1, 13, u32::from(r))
    } else if !reaches(layout, r, half, a) {
        let reached = small_data_address(layout, r, half).unwrap_or(0);
        fault(Rule::Sda, offset, 2, a, reached)
    } else if is_in_small_data(layout, r, a) {
        None
    } else {
        fault(Rule::Sda, offset, 3, u32::from(r), register_at(layout, a))
    }
}

/// The fault of what stands in a gap.
fn any_gap_fault(
    layout: &Layout,
    offset: u32,
    at: u32,
    gap: Gap,
    right: &Machine,
    word: u32,
) -> Option<Spot>
    ensures { result ≡ first_fault (gap_checks layout.now offset at gap right.now word) }
{
    match gap {
        Gap::SmallData(a) => small_data_fault(layout, offset, a, base_field(word), word & 0xffff),
        Gap::Closed | Gap::Half(_) | Gap::Near(_) | Gap::Far(_) | Gap::Free => {
            gap_fault(offset, at, gap, right, word)
        }
    }
}

/// The first fault of a word at an address, which stands so far from the function's address.
pub fn word_fault(layout: &Layout, offset: u32, at: u32, shape: &Shape, word: u32) -> Option<Spot>
    ensures { result ≡ first_fault (shape_checks layout.now offset at shape.now word) }
{
    match fixed_fault(offset, shape, word) {
        Some(spot) => Some(spot),
        None => any_gap_fault(layout, offset, at, shape.gap, &shape.right, word),
    }
}
