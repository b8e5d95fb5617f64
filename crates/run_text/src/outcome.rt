//! How a trace ends, in print.

ghost use Rattle.std.specs.Prelude.{◌≡◌, ◌++◌, OnOk, string_bytes};
ghost use Rattle.text_model.specs.Lines.{line};
ghost use Rattle.run_text.specs.Texts.{kind_word, outcome_words, why_word};

use asm_step::answer::Why;
use flat_mem::memory::FaultKind;
use machine_runs::trace::Outcome;
use std::alloc::AllocError;
use std::fmt::Write;
use word_ops::hexadecimal::Hexadecimal;

fn why_word(why: Why) -> &'static str
    ensures { result.now ≡ why_word why }
{
    match why {
        Why::End => "end",
        Why::Access => "access",
        Why::Bit => "bit",
        Why::Count => "count",
        Why::Target => "target",
        Why::Argument => "argument",
        Why::Final => "final",
        Why::Divide => "divide",
        Why::Trap => "trap",
        Why::Frame => "frame",
        Why::Table => "table",
        Why::Buffer => "buffer",
    }
}

fn kind_word(kind: FaultKind) -> &'static str
    ensures { result.now ≡ kind_word kind }
{
    match kind {
        FaultKind::Unmapped => "unmapped",
        FaultKind::NotCode => "not-code",
        FaultKind::ReadOnly => "read-only",
        FaultKind::Opcode => "opcode",
        FaultKind::Divide => "divide",
        FaultKind::Trap => "trap",
        FaultKind::Buffer => "buffer",
    }
}

/// Puts the line of an outcome behind a text.
pub fn push_outcome(out: &mut String, outcome: Outcome) -> Result<(), AllocError>
    ensures { OnOk result (string_bytes out.new ≡ string_bytes out.old ++ line (outcome_words outcome)) }
{
    match outcome {
        Outcome::Going => out.push_str("going\n"),
        Outcome::Ended(word) => {
            let word = Hexadecimal(word);
            write!(out, "ended {word}\n")
        }
        Outcome::Starved => out.push_str("starved\n"),
        Outcome::Undefined(why) => {
            let why = why_word(why);
            write!(out, "undefined {why}\n")
        }
        Outcome::Stack => out.push_str("stack\n"),
        Outcome::Faulted(kind) => {
            let kind = kind_word(kind);
            write!(out, "faulted {kind}\n")
        }
        Outcome::Full => out.push_str("full\n"),
    }
}
