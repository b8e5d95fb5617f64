//! Runs over files that were read.

ghost use Rattle.std.specs.Prelude.{◌≡◌, ◌≤◌, IfErr, IfOk};
ghost use Rattle.limits.specs.declared.TheConstants.{IMAGE_STEPS_A_STEP, MOST_STEPS};
ghost use Rattle.link_model.specs.Binding.{addresses};
ghost use Rattle.name_addresses.specs.Given.{given};
ghost use Rattle.run_verdicts.specs.Runs.{Compares, IsFaultOf, IsRunAt, IsRunOf, free_junk};

use crate::{FREE_BYTE, FREE_WORD};
use asm_syntax::listed::Listed;
use asm_syntax::unit::Reply;
use elf_view::ElfView;
use image_check::binding::bound;
use key_passes::fault::CheckFault;
use layout_file::layout::Layout;
use limits::IMAGE_STEPS_A_STEP;
use link_laws::laws::matches_or_fails;
use linked_program::program::Program;
use machine_runs::asm_run::run_asm;
use machine_runs::image_run::run_image;
use machine_runs::trace::Trace;
use ppc_machine::cpu::Junk;
use report_text::verdict::Verdict;
use run_text::{is_same, run_text};
use simulation::judge::JudgeError;
use std::alloc::{AllocError, Global};
use trace_laws::laws::matching_traces_agree;

fn free_junk() -> Junk
    ensures { result ≡ free_junk }
{
    Junk {
        regs: [FREE_WORD; 32],
        cr: FREE_WORD,
        ctr: FREE_WORD,
        xer: FREE_WORD,
    }
}

/// The verdict on the traces of both machines.
fn compared(
    alloc: Global,
    program: &Program,
    asm: &Trace,
    image: &Trace,
) -> Result<Verdict, AllocError>
    ensures { IfOk result (Compares program.now.units asm.now image.now) }
{
    let same = is_same(asm, image);
    let text = run_text(alloc, program, asm, image)?;
    let text = Listed::from_vec(text.into_bytes());
    if same {
        Ok(Verdict::Done(text))
    } else {
        Ok(Verdict::Differs(text))
    }
}

/// The verdict on both runs, where the keys have these addresses.
fn run_placed(
    alloc: Global,
    view: &ElfView,
    layout: &Layout,
    program: &Program,
    addresses: &[u32],
    replies: &[Reply],
    steps: u32,
) -> Result<Verdict, AllocError>
    requires { steps ≤ MOST_STEPS }
    ensures { IfOk result (IsRunAt (given view.now layout.now program.now) addresses.now replies.now steps) }
{
    let asm = run_asm(alloc, program, layout, addresses, replies, steps)?;
    let image_steps = IMAGE_STEPS_A_STEP * steps;
    let image = run_image(
        alloc,
        view,
        program,
        layout,
        addresses,
        replies,
        &free_junk(),
        FREE_BYTE,
        image_steps,
    )?;
    compared(alloc, program, &asm, &image)
}

/// The verdict on both runs; or the first place that fails, where some key has no address or an external is where none may be.
/// Where the image matches, no such place fails and both runs agree.
pub fn run_bound(
    alloc: Global,
    view: &ElfView,
    layout: &Layout,
    program: &Program,
    replies: &[Reply],
    steps: u32,
) -> Result<Verdict, JudgeError>
    requires { steps ≤ MOST_STEPS }
    ensures yes { IfOk result (IsRunOf (given view.now layout.now program.now) replies.now steps) }
    ensures error { IfErr result (IsFaultOf (given view.now layout.now program.now)) }
{
    let _segments = view.segments();
    let _stack = layout.stack();
    let _units = program.units();
    matches_or_fails();
    matching_traces_agree();
    let binding = match bound(alloc, view, layout, program) {
        Ok(binding) => binding,
        Err(CheckFault::No(fault)) => return Err(JudgeError::No(fault)),
        Err(CheckFault::Memory) => return Err(JudgeError::Memory),
    };
    match run_placed(
        alloc,
        view,
        layout,
        program,
        binding.addresses(),
        replies,
        steps,
    ) {
        Ok(verdict) => Ok(verdict),
        Err(_) => Err(JudgeError::Memory),
    }
}
