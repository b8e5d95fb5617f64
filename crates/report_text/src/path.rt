//! Paths in print.

ghost use Rattle.std.specs.Prelude.{◌≡◌, ◌∷◌, ◌++◌, IfOk, OnOk, string_bytes};
ghost use Rattle.report_text.specs.Places.{path_text, step_text};

use asm_syntax::path::Step;
use std::alloc::{AllocError, Global};
use std::fmt::Write;

fn push_step(out: &mut String, step: &Step) -> Result<(), AllocError>
    ensures { OnOk result (string_bytes out.new ≡ string_bytes out.old ++ step_text step.now) }
{
    match step {
        Step::Key(name) => out.push_str(name.text()),
        Step::Index(i) => write!(out, "{i}"),
    }
}

fn push_below(out: &mut String, step: &Step) -> Result<(), AllocError>
    ensures { OnOk result (string_bytes out.new ≡ string_bytes out.old ++ 0x2f ∷ step_text step.now) }
{
    out.push_str("/")?;
    push_step(out, step)
}

fn joined(alloc: Global, first: &Step, rest: &[Step]) -> Result<String, AllocError>
    ensures { IfOk result (λ t. string_bytes t ≡ path_text (first.now ∷ rest.now)) }
{
    let mut out = String::new(alloc);
    push_step(&mut out, first)?;
    for step in rest {
        push_below(&mut out, step)?;
    }
    Ok(out)
}

/// The steps with a `/` between two, and `.` where there is none.
pub fn path_text(alloc: Global, path: &[Step]) -> Result<String, AllocError>
    ensures { IfOk result (λ t. string_bytes t ≡ path_text path.now) }
{
    match path {
        [] => String::from_str(alloc, "."),
        [first, rest @ ..] => joined(alloc, first, rest),
    }
}
