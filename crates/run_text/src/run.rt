//! A run, in print.

ghost use Rattle.std.specs.Prelude.{◌≡◌, ◌++◌, IfOk, OnOk, string_bytes};
ghost use Rattle.std.specs.List.{flat_map};
ghost use Rattle.text_model.specs.Lines.{line};
ghost use Rattle.run_text.specs.Texts.{agreement_words, event_text, run_text, trace_text};

use crate::agreement::{common_events, is_same};
use crate::event::push_event;
use crate::outcome::push_outcome;
use linked_program::program::Program;
use machine_runs::trace::{Seen, Trace};
use std::alloc::{AllocError, Global};
use std::fmt::Write;

fn push_events(
    alloc: Global,
    out: &mut String,
    program: &Program,
    events: &[Seen],
) -> Result<(), AllocError>
    ensures { OnOk result (string_bytes out.new ≡ string_bytes out.old ++ flat_map (event_text program.now.units) events.now) }
{
    for seen in events {
        push_event(alloc, out, program, seen)?;
    }
    Ok(())
}

fn push_trace(
    alloc: Global,
    out: &mut String,
    program: &Program,
    machine: &str,
    trace: &Trace,
) -> Result<(), AllocError>
    ensures { OnOk result (string_bytes out.new ≡ string_bytes out.old ++ trace_text program.now.units machine.now trace.now) }
{
    write!(out, "{machine}\n")?;
    push_events(alloc, out, program, trace.events.items())?;
    push_outcome(out, trace.outcome)
}

fn push_agreement(out: &mut String, asm: &Trace, image: &Trace) -> Result<(), AllocError>
    ensures { OnOk result (string_bytes out.new ≡ string_bytes out.old ++ line (agreement_words asm.now image.now)) }
{
    if is_same(asm, image) {
        return out.push_str("same\n");
    }
    let common = common_events(asm.events.items(), image.events.items());
    write!(out, "differ {common}\n")
}

/// The traces of both machines over a program, and whether they agree. Externals are named by their keys.
pub fn run_text(
    alloc: Global,
    program: &Program,
    asm: &Trace,
    image: &Trace,
) -> Result<String, AllocError>
    ensures { IfOk result (λ t. string_bytes t ≡ run_text program.now.units asm.now image.now) }
{
    let mut out = String::new(alloc);
    push_trace(alloc, &mut out, program, "assembly", asm)?;
    push_trace(alloc, &mut out, program, "image", image)?;
    push_agreement(&mut out, asm, image)?;
    Ok(out)
}
