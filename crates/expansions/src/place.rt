//! Where a function may stand.

ghost use Rattle.std.specs.Prelude.{◌≡◌, ◌≤◌, ◌<◌, ◌^◌, ◌-◌, IsNone};
ghost use Rattle.ordered_tests.specs.Checks.{first_fault, from_to};
ghost use Rattle.code_model.specs.FunctionChecks.{byte_checks, place_checks};

use crate::area::{Part, is_in_one_area};
use asm_syntax::rule::Rule;
use code_model::spot::Spot;
use elf_view::LoadedSegments;
use image_model::flags::is_executable;
use layout_file::layout::Layout;
use reloc_match::word::fault;

/// The first byte from `base` up to `end` that is not executable, found segment by segment.
fn bytes_fault(segments: &LoadedSegments, base: u32, end: u64) -> Option<Spot>
    requires { end ≤ 2 ^ 32 }
    ensures { result ≡ first_fault (byte_checks segments.now base (from_to base end)) }
{
    let mut a = u64::from(base);
    while a < end {
        match segments.holder(a) {
            Some(segment) => {
                if !is_executable(segment.flags) {
                    return fault(Rule::Place, (a - base as u64) as u32, 3, 0, base);
                }
                a = segment.vaddr as u64 + segment.memsz as u64;
            }
            None => return fault(Rule::Place, (a - base as u64) as u32, 3, 0, base),
        }
    }
    None
}

/// The first fault of the place of a function from `base` up to `end`.
#[tactic(auto, unfolding(code_model::specs::FunctionChecks::place_checks))]
pub fn place_fault(segments: &LoadedSegments, layout: &Layout, base: u32, end: u64) -> Option<Spot>
    ensures value { result ≡ first_fault (place_checks segments.now layout.now base end) }
    ensures low { IsNone result → end < 2 ^ 32 }
{
    if base % 4 != 0 {
        return fault(Rule::Place, 0, 1, 0, base);
    }
    if !is_in_one_area(layout, Part::Code, u64::from(base), end) {
        return fault(Rule::Place, 0, 2, 0, base);
    }
    bytes_fault(segments, base, end)
}
