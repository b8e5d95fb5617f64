//! The verdict on a run.

ghost use Rattle.std.specs.Prelude.{◌≡◌, ◌≤◌, IfErr, IfOk, length, true};
ghost use Rattle.std.specs.List.{list_all};
ghost use Rattle.limits.specs.declared.TheConstants.{MOST_STEPS, MOST_UNITS};
ghost use Rattle.asm_shapes.specs.Units.{unit_fits};
ghost use Rattle.simulation.specs.Judged.{Gives, contents};
ghost use Rattle.run_verdicts.specs.Files.{after_files, replies_in};
ghost use Rattle.run_verdicts.specs.Runs.{IsRunAfter, IsStopAfter, IsStopBy, IsVerdict, Runs, refused_place};

use crate::bound::run_bound;
use asm_syntax::unit::{Replies, Reply, Unit};
use dump_reader::{DumpError, read_replies as replies_of};
use elf_view::ElfView;
use judge_model::refusal::Refusal;
use layout_file::layout::Layout;
use report_text::verdict::Verdict;
use simulation::inputs::{linked, read_image, read_layout, read_units};
use simulation::judge::JudgeError;
use std::alloc::{AllocError, Global};

#[tactic(auto, unfolding(crate::specs::Files::replies_in))]
fn read_replies(alloc: Global, bytes: &[u8]) -> Result<Replies, JudgeError>
    ensures { Gives (λ r. r) result (replies_in bytes.now) }
{
    match replies_of(alloc, bytes) {
        Ok(replies) => Ok(replies),
        Err(DumpError::Memory) => Err(JudgeError::Memory),
        Err(error) => Err(JudgeError::Refused(Refusal::Replies(error))),
    }
}

/// The verdict on files that were read.
#[tactic(auto, using(crate::proofs::Reading::unlinked, crate::proofs::Reading::linked_yes, crate::proofs::Reading::linked_no))]
fn run_units(
    alloc: Global,
    view: &ElfView,
    layout: &Layout,
    units: &[Unit],
    replies: &[Reply],
    steps: u32,
) -> Result<Verdict, JudgeError>
    requires few { length units.now ≤ MOST_UNITS }
    requires fit { list_all unit_fits units.now ≡ true }
    requires steps { steps ≤ MOST_STEPS }
    ensures yes { IfOk result (IsRunAfter (after_files view.now layout.now units.now replies.now) steps) }
    ensures error { IfErr result (IsStopAfter (after_files view.now layout.now units.now replies.now)) }
{
    let program = match linked(alloc, units, layout.entry()) {
        Ok(program) => program,
        Err(error) => return Err(error),
    };
    run_bound(alloc, view, layout, &program, replies, steps)
}

/// The verdict on the contents of the files, or why there is none.
fn run_files(
    alloc: Global,
    layout: &[u8],
    image: &[u8],
    replies: &[u8],
    steps: u32,
    units: &[Vec<u8>],
) -> Result<Verdict, JudgeError>
    requires few { length units.now ≤ MOST_UNITS }
    requires steps { steps ≤ MOST_STEPS }
    ensures yes { IfOk result (IsVerdict layout.now image.now replies.now steps (contents units.now)) }
    ensures error { IfErr result (IsStopBy layout.now image.now replies.now (contents units.now)) }
{
    let layout = match read_layout(alloc, layout) {
        Ok(layout) => layout,
        Err(error) => return Err(error),
    };
    let view = match read_image(image) {
        Ok(view) => view,
        Err(error) => return Err(error),
    };
    let units = match read_units(alloc, units) {
        Ok(units) => units,
        Err(error) => return Err(error),
    };
    let replies = match read_replies(alloc, replies) {
        Ok(replies) => replies,
        Err(error) => return Err(error),
    };
    run_units(alloc, &view, &layout, &units, replies.items(), steps)
}

/// The place among the words of the file that a refusal is of.
fn refused_place(refusal: &Refusal) -> usize
    ensures { result ≡ refused_place refusal.now }
{
    match refusal {
        Refusal::Layout(_) | Refusal::Entry(_) => 1,
        Refusal::Image(_) => 2,
        Refusal::Replies(_) => 3,
        Refusal::Unit(unit, _) | Refusal::Link(unit, _, _) => *unit as usize + 5,
    }
}

/// What both machines do in so many steps of the assembly, with these replies of external functions.
pub fn ran(
    alloc: Global,
    layout: &[u8],
    image: &[u8],
    replies: &[u8],
    steps: u32,
    units: &[Vec<u8>],
) -> Result<Verdict, AllocError>
    requires few { length units.now ≤ MOST_UNITS }
    requires steps { steps ≤ MOST_STEPS }
    ensures { IfOk result (Runs layout.now image.now replies.now steps (contents units.now)) }
{
    match run_files(alloc, layout, image, replies, steps, units) {
        Ok(verdict) => Ok(verdict),
        Err(JudgeError::Refused(refusal)) => {
            Ok(Verdict::Refused(refused_place(&refusal), refusal))
        }
        Err(JudgeError::No(fault)) => Ok(Verdict::No(fault)),
        Err(JudgeError::Memory) => Err(AllocError),
    }
}
