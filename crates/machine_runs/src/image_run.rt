//! Runs of the flat machine over an image.

ghost use Rattle.std.specs.Prelude.{◌≡◌, replicate, IfOk};
ghost use Rattle.name_addresses.specs.Given.{given};
ghost use Rattle.machine_model.specs.FlatRuns.{flat_run, image_run};
ghost use Rattle.ppc_machine.specs.Answers.{step_from};
ghost use Rattle.ppc_machine.specs.Externals.{external_at};
ghost use Rattle.ppc_machine.specs.State.{state};
ghost use Rattle.std.specs.Option.{option_copied};
ghost use Rattle.machine_runs.specs.Steps.{FlatAdds, flat_state_after};
ghost use Rattle.machine_runs.specs.Traces.{flat_trace, stack_size};

use crate::events::{Events, reply_at};
use crate::externals::{key_address, outside};
use crate::trace::{Outcome, Trace};
use asm_syntax::unit::Reply;
use call_bytes::bytes::CallBytes;
use elf_view::ElfView;
use flat_mem::memory::FlatMem;
use layout_file::layout::Layout;
use linked_program::program::Program;
use ppc_machine::cpu::{Cpu, Flat, Junk};
use ppc_machine::externals::ExtTable;
use std::alloc::{AllocError, Global};

/// One step, and its event. The outcome where the trace ends with it.
fn advance(
    cpu: &mut Cpu,
    mem: &mut FlatMem,
    ext: &ExtTable,
    reply: Option<&Reply>,
    bytes: &mut CallBytes,
    events: &mut Events,
) -> Result<Option<Outcome>, AllocError>
    ensures state { let n = step_from cpu.old ext.now (option_copied reply.entry) (state cpu.old.processor mem.old) in
        IfOk result (λ end. state cpu.new.processor mem.new ≡ flat_state_after n (state cpu.old.processor mem.old)) }
    ensures events { let n = step_from cpu.old ext.now (option_copied reply.entry) (state cpu.old.processor mem.old) in
        IfOk result (λ end. FlatAdds n end events.old events.new) }
    ensures stop { cpu.new.stop ≡ cpu.old.stop }
{
    match cpu.step(mem, ext, reply, bytes) {
        Flat::Went => Ok(None),
        Flat::Called(event) => {
            if events.add(event, bytes)? {
                Ok(None)
            } else {
                Ok(Some(Outcome::Full))
            }
        }
        Flat::Ended(word) => Ok(Some(Outcome::Ended(word))),
        Flat::Starved => Ok(Some(Outcome::Starved)),
        Flat::Faulted(kind) => Ok(Some(Outcome::Faulted(kind))),
    }
}

/// The trace of so many steps from a state.
fn trace_from(
    alloc: Global,
    cpu: &mut Cpu,
    mem: &mut FlatMem,
    ext: &ExtTable,
    replies: &[Reply],
    steps: u32,
) -> Result<Trace, AllocError>
    ensures { IfOk result (λ t. t ≡ flat_trace (λ m. flat_run cpu.old.stop (external_at ext.now) m (state cpu.old.processor mem.old) replies.now) steps) }
{
    let mut bytes = CallBytes::new(alloc)?;
    let mut events = Events::new(alloc);
    for i in 0..steps {
        let reply = reply_at(replies, events.count());
        match advance(cpu, mem, ext, reply, &mut bytes, &mut events)? {
            None => {}
            Some(outcome) => return Ok(events.ends(outcome)),
        }
    }
    Ok(events.ends(Outcome::Going))
}

/// So many times a byte.
fn bytes_of(alloc: Global, byte: u8, count: usize) -> Result<Vec<u8>, AllocError>
    ensures { IfOk result (λ v. v.items ≡ replicate count byte) }
{
    vec![in alloc; byte; count]
}

/// The trace of so many steps of an image, which starts at the entry of a program whose keys have these addresses. The registers that
/// its first state leaves open are as `junk` says, and each byte of the stack is `stack_byte`.
pub fn run_image(
    alloc: Global,
    view: &ElfView,
    program: &Program,
    layout: &Layout,
    addresses: &[u32],
    replies: &[Reply],
    junk: &Junk,
    stack_byte: u8,
    steps: u32,
) -> Result<Trace, AllocError>
    ensures { let g = given view.now layout.now program.now in
        IfOk result (λ t. t ≡ flat_trace (image_run g addresses.now junk.now (replicate (stack_size layout.now) stack_byte) replies.now) steps) }
{
    let stack = layout.stack();
    let held = bytes_of(alloc, stack_byte, (stack.hi - stack.lo) as usize)?;
    let mut mem = FlatMem::build(alloc, view, &stack, &held)?;
    let ext = outside(alloc, program, addresses)?;
    let entry = key_address(addresses, program.entry_key());
    let mut cpu = Cpu::start(entry, layout, junk, &mut mem);
    trace_from(alloc, &mut cpu, &mut mem, &ext, replies, steps)
}
