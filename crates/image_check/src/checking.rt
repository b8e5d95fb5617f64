//! All passes, and what follows of a match.

ghost use Rattle.std.specs.Prelude.{◌≡◌, ◌++◌, IfOk, IfErr};
ghost use Rattle.ordered_tests.specs.Checks.{first_fault};
ghost use Rattle.link_model.specs.Account.{program_account};
ghost use Rattle.link_model.specs.Binding.{addresses};
ghost use Rattle.link_model.specs.Claims.{claims};
ghost use Rattle.link_model.specs.Parts.{Matches};
ghost use Rattle.link_model.specs.Overlaps.{overlap_pass};
ghost use Rattle.link_model.specs.Passes.{stray_pass, passes};
ghost use Rattle.name_addresses.specs.Given.{given};
ghost use Rattle.coverage.specs.Accounts.{account_seen};
ghost use Rattle.key_passes.specs.Answers.{Decides};
ghost use Rattle.image_check.specs.Places.{IsNo};

use crate::binding::bound_pass;
use crate::overlap::overlap_pass;
use crate::placing::place_keys;
use crate::strays::stray_pass;
use coverage::account::Account;
use coverage::claims::Claims;
use elf_view::{ElfView, LoadedSegments};
use key_passes::bound_program::BoundProgram;
use key_passes::entry::entry_pass;
use key_passes::externals::count_externals;
use key_passes::fault::CheckFault;
use layout_file::layout::Layout;
use link_laws::laws::matches_or_fails;
use name_addresses::keys::KeyedProgram;
use std::alloc::Global;

/// That no two claims meet and no loaded address is stray, and the account of all loaded addresses.
fn account_all<P: KeyedProgram>(
    alloc: Global,
    bound: &BoundProgram<P>,
    mut added: Claims,
) -> Result<Account, CheckFault>
    requires { let g = given bound.now.segments.now bound.now.layout.now (P.program bound.now.program.now) in
        added ≡ claims g bound.now.addresses.now }
    ensures places { let g = given bound.now.segments.now bound.now.layout.now (P.program bound.now.program.now) in
        let cs = claims g bound.now.addresses.now in
        Decides (first_fault (overlap_pass cs ++ stray_pass g.image g.layout cs)) result }
    ensures account { let g = given bound.now.segments.now bound.now.layout.now (P.program bound.now.program.now) in
        IfOk result (λ a. account_seen a ≡ program_account g bound.now.addresses.now) }
{
    overlap_pass(alloc, &mut added)?;
    let mut account = stray_pass(alloc, &added, bound.segments, bound.layout)?;
    account.externals = count_externals(bound.program);
    Ok(account)
}

/// The passes in their order.
fn search<P: KeyedProgram>(
    alloc: Global,
    view: &ElfView,
    layout: &Layout,
    program: &P,
) -> Result<Account, CheckFault>
    ensures places { let g = given view.now layout.now (P.program program.now) in
        Decides (first_fault (passes g (addresses g))) result }
    ensures account { let g = given view.now layout.now (P.program program.now) in
        IfOk result (λ a. account_seen a ≡ program_account g (addresses g)) }
{
    entry_pass(alloc, view)?;
    let binding = bound_pass(alloc, view, layout, program)?;
    let segments = LoadedSegments::read(alloc, view)?;
    let bound = BoundProgram {
        segments: &segments,
        layout,
        program,
        addresses: binding.addresses(),
    };
    let claims = place_keys(alloc, &bound)?;
    account_all(alloc, &bound, claims)
}

/// The account of an image that matches the units of a program; else the first place that fails. The time is near linear in the
/// image and the units.
pub fn check<P: KeyedProgram>(
    alloc: Global,
    view: &ElfView,
    layout: &Layout,
    program: &P,
) -> Result<Account, CheckFault>
    ensures yes { let g = given view.now layout.now (P.program program.now) in
        IfOk result (λ a. Matches g × (account_seen a ≡ program_account g (addresses g))) }
    ensures no { let g = given view.now layout.now (P.program program.now) in IfErr result (IsNo g) }
{
    let _segments = view.segments();
    matches_or_fails();
    search(alloc, view, layout, program)
}
