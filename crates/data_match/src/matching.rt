//! The answer for one variable.

ghost use Rattle.std.specs.Prelude.{◌≡◌, ◌≤◌, ◌<◌, IfOk, option_map};
ghost use Rattle.ordered_tests.specs.Checks.{first_fault, fault_of};
ghost use Rattle.word_ops.specs.Seen.{extent_of};
ghost use Rattle.asm_syntax.specs.Sizes.{variable_size};
ghost use Rattle.code_model.specs.Variables.{data_checks, data_place_checks, data_range, variable_checks};
ghost use Rattle.limits.specs.declared.TheConstants.{MOST_VARIABLE_BYTES};
ghost use Rattle.data_match.specs.Faults.{spot_of};

use crate::bytes::items_fault;
use crate::fault::DataFault;
use crate::place::{is_in_data_area, is_writable_range};
use asm_syntax::unit::Variable;
use elf_view::LoadedSegments;
use layout_file::layout::Layout;
use name_addresses::NameAddresses;
use word_ops::range::Range;

/// The size of a variable that is not too large.
fn size_of(variable: &Variable) -> u32
    requires { variable_size variable.now.init ≤ MOST_VARIABLE_BYTES }
    ensures { result ≡ variable_size variable.now.init }
{
    match asm_syntax::unit::variable_size(variable.init.items()) {
        Some(size) => size,
        None => unreachable!(),
    }
}

/// The first fault of the place of a variable whose bytes are loaded.
#[tactic(auto, unfolding(code_model::specs::Variables::data_place_checks))]
fn place_fault(
    variable: &Variable,
    alignment: u8,
    range: &Range,
    segments: &LoadedSegments,
    layout: &Layout,
) -> Option<DataFault>
    requires alignment { 0 < alignment }
    requires range { extent_of range.now ≡ data_range range.now.lo variable.now }
    ensures { option_map (spot_of range.now.lo) result
        ≡ first_fault (data_place_checks segments.now layout.now alignment range.now.lo variable.now) }
{
    if range.lo % u64::from(alignment) != 0 {
        return Some(DataFault::Align);
    }
    if !is_in_data_area(layout, variable.writable, range) {
        return Some(DataFault::Area);
    }
    if variable.writable && !is_writable_range(segments, range) {
        return Some(DataFault::Flags);
    }
    None
}

/// The range of a variable that stands at an address, where `names` gives the addresses of the symbols that its items name.
pub fn match_variable<F: NameAddresses>(
    variable: &Variable,
    alignment: u8,
    address: u32,
    names: &F,
    segments: &LoadedSegments,
    layout: &Layout,
) -> Result<Range, DataFault>
    requires alignment { 0 < alignment }
    requires size { variable_size variable.now.init ≤ MOST_VARIABLE_BYTES }
    ensures range { IfOk result (λ range. extent_of range ≡ data_range address variable.now) }
    ensures first { option_map (spot_of address) (fault_of result)
        ≡ first_fault (variable_checks segments.now layout.now (F.address names.now) alignment address variable.now) }
{
    if let Some(fault) = items_fault(segments, names, address, variable.init.items()) {
        return Err(fault);
    }
    let lo = u64::from(address);
    let hi = lo + u64::from(size_of(variable));
    let range = Range { lo, hi };
    match place_fault(variable, alignment, &range, segments, layout) {
        Some(fault) => Err(fault),
        None => Ok(range),
    }
}
