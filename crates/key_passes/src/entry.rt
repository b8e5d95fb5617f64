//! The entry of the image.

ghost use Rattle.std.specs.Prelude.{◌≡◌};
ghost use Rattle.ordered_tests.specs.Checks.{first_fault};
ghost use Rattle.code_model.specs.Addresses.{is_executable_at};
ghost use Rattle.link_model.specs.Passes.{entry_pass};
ghost use Rattle.key_passes.specs.Answers.{Decides};

use crate::fault::{CheckFault, fault_nowhere};
use asm_syntax::rule::Rule;
use code_model::spot::Spot;
use elf_view::ElfView;
use image_model::flags::is_executable;
use std::alloc::Global;

fn is_executable_at(view: &ElfView, a: u32) -> bool
    ensures { result ≡ is_executable_at view.now a }
{
    match view.flags_at(a) {
        Some(flags) => is_executable(flags),
        None => false,
    }
}

/// That the image is entered at a multiple of 4 that is executable.
#[tactic(auto, unfolding(link_model::specs::Passes::entry_pass))]
pub fn entry_pass(alloc: Global, view: &ElfView) -> Result<(), CheckFault>
    ensures { Decides (first_fault (entry_pass view.now)) result }
{
    let entry = view.entry();
    if entry % 4 == 0 && is_executable_at(view, entry) {
        return Ok(());
    }
    let spot = Spot {
        rule: Rule::Entry,
        offset: entry,
        item: 0,
        wanted: 0,
        found: entry,
    };
    Err(fault_nowhere(alloc, spot))
}
