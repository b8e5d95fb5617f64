//! The addresses of the keys, and the places of the external ones.

ghost use Rattle.std.specs.Prelude.{◌≡◌, ◌<◌, IfOk, Some, None, length, slice_get};
ghost use Rattle.ordered_tests.specs.Checks.{first_fault};
ghost use Rattle.code_model.specs.WordChecks.{spot};
ghost use Rattle.link_model.specs.Program.{Declaration, keys, name_of};
ghost use Rattle.link_model.specs.Numbers.{unit_name};
ghost use Rattle.link_model.specs.Overlaps.{fault_at};
ghost use Rattle.link_model.specs.Binding.{addresses};
ghost use Rattle.link_model.specs.Passes.{bound_pass};
ghost use Rattle.name_addresses.specs.Given.{given};
ghost use Rattle.key_passes.specs.Answers.{Decides, IsNoOf};
ghost use Rattle.image_check.specs.Bound.{NamesKey, IsToldBy};
ghost use Rattle.image_check.specs.Places.{bound_places};

use asm_syntax::rule::Rule;
use code_model::spot::Spot;
use elf_view::{ElfView, LoadedSegments};
use key_passes::bound_program::BoundProgram;
use key_passes::externals::external_pass;
use key_passes::fault::{CheckFault, fault_in};
use layout_file::layout::Layout;
use link_model::link_error::BindFault;
use name_addresses::keys::KeyedProgram;
use std::alloc::Global;
use symbol_bind::bind::{Binding, bind};

fn bind_spot(rule: Rule, fitting: u32) -> Spot
    ensures { result ≡ spot rule 0 0 1 fitting }
{
    Spot {
        rule,
        offset: 0,
        item: 0,
        wanted: 1,
        found: fitting,
    }
}

/// The fault of key `k`.
fn key_fault<P: KeyedProgram>(alloc: Global, program: &P, k: u32, spot: Spot) -> CheckFault
    requires { k < length (keys (P.program program.now).units) }
    ensures { (d : Declaration) → slice_get (keys (P.program program.now).units) k ≡ Some d →
        IsNoOf (fault_at (unit_name (P.program program.now).units d.unit) (name_of d) spot None) result }
{
    let key = program.key(k);
    fault_in(alloc, program.unit_name(key.unit), key.name(), spot)
}

/// The fault of the key that a fault of binding names.
fn told<P: KeyedProgram>(alloc: Global, program: &P, fault: BindFault) -> CheckFault
    requires { NamesKey (keys (P.program program.now).units) fault }
    ensures { IsToldBy (P.program program.now).units fault result }
{
    match fault {
        BindFault::NoSymbol(k) => key_fault(alloc, program, k, bind_spot(Rule::NoSymbol, 0)),
        BindFault::NoneFits(k) => key_fault(alloc, program, k, bind_spot(Rule::NoneFits, 0)),
        BindFault::SeveralFit(k, fitting) => {
            key_fault(alloc, program, k, bind_spot(Rule::SeveralFit, fitting))
        }
        BindFault::Memory => CheckFault::Memory,
    }
}

/// That each key has an address.
pub fn bound_pass<P: KeyedProgram>(
    alloc: Global,
    view: &ElfView,
    layout: &Layout,
    program: &P,
) -> Result<Binding, CheckFault>
    ensures binding { IfOk result (λ b. b ≡ addresses (given view.now layout.now (P.program program.now))) }
    ensures places { Decides (first_fault (bound_pass (given view.now layout.now (P.program program.now)))) result }
{
    match bind(alloc, view, layout, program) {
        Ok(binding) => Ok(binding),
        Err(fault) => Err(told(alloc, program, fault)),
    }
}

/// The addresses of the keys, where each has one and the external ones are where they may be. The first place that fails is told.
#[tactic(auto, unfolding(crate::specs::Places::bound_places))]
pub fn bound<P: KeyedProgram>(
    alloc: Global,
    view: &ElfView,
    layout: &Layout,
    program: &P,
) -> Result<Binding, CheckFault>
    ensures binding { IfOk result (λ b. b ≡ addresses (given view.now layout.now (P.program program.now))) }
    ensures places { Decides (first_fault (bound_places (given view.now layout.now (P.program program.now)))) result }
{
    let binding = bound_pass(alloc, view, layout, program)?;
    let segments = LoadedSegments::read(alloc, view)?;
    let bound = BoundProgram {
        segments: &segments,
        layout,
        program,
        addresses: binding.addresses(),
    };
    external_pass(alloc, &bound)?;
    Ok(binding)
}
