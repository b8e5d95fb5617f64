//! Runs of the assembly machine over a linked program.

ghost use Rattle.std.specs.Prelude.{◌≡◌, ◌≤◌, ◌<◌, ◌+◌, ◌-◌, ℕ, IfOk, length, max, nat_le};
ghost use Rattle.std.specs.Option.{option_copied};
ghost use Rattle.image_model.specs.Image.{Image};
ghost use Rattle.limits.specs.declared.TheConstants.{LEAST_FRAME_BYTES, MOST_FRAMES, MOST_STEPS};
ghost use Rattle.link_model.specs.Numbers.{variables};
ghost use Rattle.name_addresses.specs.Given.{given};
ghost use Rattle.asm_step.specs.Steps.{asm_step};
ghost use Rattle.asm_machine.specs.Executables.{linked};
ghost use Rattle.asm_machine.specs.Stacks.{frame_cells};
ghost use Rattle.machine_model.specs.AsmRuns.{asm_run, program_run};
ghost use Rattle.machine_runs.specs.Steps.{AsmFits, asm_state_after, or_stack};
ghost use Rattle.machine_runs.specs.Traces.{asm_seen, asm_trace, stack_size};

use crate::events::{Events, reply_at};
use crate::trace::{Outcome, Trace};
use crate::words::Placed;
use asm_machine::executable::executable;
use asm_machine::machine::AsmCpu;
use asm_step::answer::Asm;
use asm_step::executable::Executable;
use asm_syntax::unit::Reply;
use call_bytes::bytes::CallBytes;
use layout_file::layout::Layout;
use limits::LEAST_FRAME_BYTES;
use linked_program::program::Program;
use std::alloc::{AllocError, Global};

/// Whether the frames that a machine has had, and the root, fit the stack.
fn fits(layout: &Layout, cpu: &AsmCpu) -> bool
    ensures { result ≡ nat_le (cpu.now.deepest + LEAST_FRAME_BYTES) (stack_size layout.now) }
{
    let stack = layout.stack();
    let root = u64::from(LEAST_FRAME_BYTES);
    let size = stack.hi - stack.lo;
    root <= size && cpu.deepest() <= size - root
}

/// How a trace ends, which is otherwise so, where the stack has room or has not.
fn or_stack(room: bool, end: Option<Outcome>) -> Option<Outcome>
    ensures { result ≡ or_stack room end }
{
    if room { end } else { Some(Outcome::Stack) }
}

/// One step, and its event. The outcome where the trace ends with it.
fn advance(
    placed: &Placed,
    cpu: &mut AsmCpu,
    code: &Executable,
    reply: Option<&Reply>,
    bytes: &mut CallBytes,
    events: &mut Events,
) -> Result<Option<Outcome>, AllocError>
    requires program { code.now ≡ linked placed.now.program.now }
    requires variables { cpu.old.variables ≡ code.now.variables }
    requires frames { cpu.old.state.next - (cpu.old.variables + 1) < MOST_FRAMES }
    ensures state { IfOk result (λ end. cpu.new.state ≡ asm_state_after (asm_step code.now cpu.old.state (option_copied reply.entry)) cpu.old.state) }
    ensures events { (v : Image) → let g = given v placed.now.layout.now placed.now.program.now in
        IfOk result (λ end. AsmFits (asm_seen g placed.now.addresses.now) (stack_size placed.now.layout.now) cpu.new.deepest cpu.old.state
        (asm_step code.now cpu.old.state (option_copied reply.entry)) end events.old events.new) }
    ensures deepest { cpu.new.deepest ≡ max cpu.old.deepest (frame_cells cpu.old.variables cpu.new.state.live) }
    ensures grows { cpu.new.state.next ≤ cpu.old.state.next + 1 }
    ensures variables { cpu.new.variables ≡ cpu.old.variables }
{
    let answer = cpu.step(code, reply, bytes);
    let room = fits(placed.layout, cpu);
    match answer {
        Asm::Went => Ok(or_stack(room, None)),
        Asm::Called(call) => {
            if !room {
                return Ok(Some(Outcome::Stack));
            }
            let event = placed.event(cpu, &call);
            if events.add(event, bytes)? {
                Ok(None)
            } else {
                Ok(Some(Outcome::Full))
            }
        }
        Asm::Ended(word) => Ok(or_stack(room, Some(Outcome::Ended(word)))),
        Asm::Starved => Ok(or_stack(room, Some(Outcome::Starved))),
        Asm::Undefined(why) => Ok(or_stack(room, Some(Outcome::Undefined(why)))),
        Asm::Memory => Err(AllocError),
    }
}

/// The trace of so many steps from a state.
fn trace_from(
    alloc: Global,
    placed: &Placed,
    cpu: &mut AsmCpu,
    code: &Executable,
    replies: &[Reply],
    steps: u32,
) -> Result<Trace, AllocError>
    requires program { code.now ≡ linked placed.now.program.now }
    requires variables { cpu.old.variables ≡ code.now.variables }
    requires frames { cpu.old.state.next + steps ≤ cpu.old.variables + MOST_FRAMES }
    requires none { cpu.old.deepest ≡ frame_cells cpu.old.variables cpu.old.state.live }
    requires room { cpu.old.deepest + LEAST_FRAME_BYTES ≤ stack_size placed.now.layout.now }
    ensures { (v : Image) → let g = given v placed.now.layout.now placed.now.program.now in
        IfOk result (λ t. t ≡ asm_trace g placed.now.addresses.now (λ m. asm_run code.now m cpu.old.state replies.now) steps) }
{
    let mut bytes = CallBytes::new(alloc)?;
    let mut events = Events::new(alloc);
    for i in 0..steps {
        let reply = reply_at(replies, events.count());
        match advance(placed, cpu, code, reply, &mut bytes, &mut events)? {
            None => {}
            Some(outcome) => return Ok(events.ends(outcome)),
        }
    }
    Ok(events.ends(Outcome::Going))
}

/// The trace of so many steps of a program. Its pointers show as the words that the addresses of its keys and the stack of the layout
/// give.
pub fn run_asm(
    alloc: Global,
    program: &Program,
    layout: &Layout,
    addresses: &[u32],
    replies: &[Reply],
    steps: u32,
) -> Result<Trace, AllocError>
    requires { steps ≤ MOST_STEPS }
    ensures { (v : Image) → let g = given v layout.now program.now in
        IfOk result (λ t. t ≡ asm_trace g addresses.now (program_run program.now replies.now) steps) }
{
    let _stack = layout.stack();
    let code = executable(alloc, program)?;
    let mut cpu = AsmCpu::start(alloc, program, &code, program.entry_key())?;
    let placed = Placed {
        layout,
        program,
        addresses,
    };
    trace_from(alloc, &placed, &mut cpu, &code, replies, steps)
}
