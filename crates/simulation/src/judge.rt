//! The judgement on an image.

ghost use Rattle.std.specs.Prelude.{◌≡◌, ◌≤◌, IfOk, IfErr, true, length};
ghost use Rattle.std.specs.List.{list_all};
ghost use Rattle.limits.specs.declared.TheConstants.{MOST_UNITS};
ghost use Rattle.asm_shapes.specs.Units.{unit_fits};
ghost use Rattle.coverage.specs.Accounts.{account_seen};
ghost use Rattle.judge_model.specs.Judge.{IsAccount};
ghost use Rattle.simulation.specs.Judged.{contents, after_reading, IsAccountOf, IsFaithful, IsFaithfulOf, IsJudgedBy, IsJudgedOf};

use crate::inputs::{linked, read_image, read_layout, read_units};
use asm_syntax::unit::Unit;
use coverage::account::Account;
use elf_view::ElfView;
use image_check::checking::check;
use judge_model::refusal::Refusal;
use key_passes::fault::CheckFault;
use layout_file::layout::Layout;
use link_model::fault::Fault;
use start_laws::laws::matches_are_faithful;
use std::alloc::Global;

/// Why an image is not accepted.
#[derive(Debug, Drop)]
pub enum JudgeError {
    /// Some bytes are not of their grammar, or the units do not link.
    Refused(Refusal),
    /// The image does not match: the first place that fails.
    No(Fault),
    Memory,
}

/// The judgement on units that were read.
fn judge_units(
    alloc: Global,
    view: &ElfView,
    layout: &Layout,
    units: &[Unit],
) -> Result<Account, JudgeError>
    requires few { length units.now ≤ MOST_UNITS }
    requires fit { list_all unit_fits units.now ≡ true }
    ensures yes { IfOk result (λ a. IsAccountOf (after_reading view.now layout.now units.now) (account_seen a)) }
    ensures faithful { IfOk result (λ _. IsFaithfulOf (after_reading view.now layout.now units.now)) }
    ensures error { IfErr result (IsJudgedOf (after_reading view.now layout.now units.now)) }
{
    let program = match linked(alloc, units, layout.entry()) {
        Ok(program) => program,
        Err(error) => return Err(error),
    };
    let _segments = view.segments();
    let _stack = layout.stack();
    let _units = program.units();
    matches_are_faithful();
    match check(alloc, view, layout, &program) {
        Ok(account) => Ok(account),
        Err(CheckFault::No(fault)) => Err(JudgeError::No(fault)),
        Err(CheckFault::Memory) => Err(JudgeError::Memory),
    }
}

/// The account of an image that matches the units by the layout; such an image does what the units' assembly does. The layout, the
/// image and the units are read in this order, and the first refusal is told.
pub fn judge(
    alloc: Global,
    image: &[u8],
    layout: &[u8],
    units: &[Vec<u8>],
) -> Result<Account, JudgeError>
    requires { length units.now ≤ MOST_UNITS }
    ensures yes { IfOk result (λ a. IsAccount layout.now image.now (contents units.now) (account_seen a)) }
    ensures faithful { IfOk result (λ _. IsFaithful layout.now image.now (contents units.now)) }
    ensures error { IfErr result (IsJudgedBy layout.now image.now (contents units.now)) }
{
    let layout = match read_layout(alloc, layout) {
        Ok(layout) => layout,
        Err(error) => return Err(error),
    };
    let view = match read_image(image) {
        Ok(view) => view,
        Err(error) => return Err(error),
    };
    let units = match read_units(alloc, units) {
        Ok(units) => units,
        Err(error) => return Err(error),
    };
    judge_units(alloc, &view, &layout, &units)
}
