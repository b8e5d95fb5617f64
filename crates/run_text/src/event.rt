//! A call of an external function, in print.

ghost use Rattle.std.specs.Prelude.{◌≡◌, ◌++◌, OnOk, string_bytes, take};
ghost use Rattle.std.specs.List.{flat_map};
ghost use Rattle.run_text.specs.Texts.{event_text, key_name, read_text, word_text};

use asm_syntax::unit::ByteList;
use linked_program::program::Program;
use machine_runs::trace::Seen;
use name_addresses::keys::KeyedProgram;
use std::alloc::{AllocError, Global};
use std::fmt::Write;
use word_ops::hexadecimal::Hexadecimal;

fn push_name(out: &mut String, program: &Program, key: u32) -> Result<(), AllocError>
    ensures { OnOk result (string_bytes out.new ≡ string_bytes out.old ++ key_name program.now.units key) }
{
    if key >= program.key_count() {
        return Ok(());
    }
    let key = program.key(key);
    out.push_str(key.name().text())
}

fn push_word(out: &mut String, word: u32) -> Result<(), AllocError>
    ensures { OnOk result (string_bytes out.new ≡ string_bytes out.old ++ word_text word) }
{
    let word = Hexadecimal(word);
    write!(out, " {word}")
}

fn push_words(out: &mut String, words: &[u32]) -> Result<(), AllocError>
    ensures { OnOk result (string_bytes out.new ≡ string_bytes out.old ++ flat_map word_text words.now) }
{
    for word in words {
        push_word(out, *word)?;
    }
    Ok(())
}

fn push_read(alloc: Global, out: &mut String, bytes: &[u8]) -> Result<(), AllocError>
    ensures { OnOk result (string_bytes out.new ≡ string_bytes out.old ++ read_text bytes.now) }
{
    let digits = hex::encode(alloc, bytes)?;
    out.push_str(" in:")?;
    out.push_str(digits.as_str())
}

fn push_reads(alloc: Global, out: &mut String, lists: &[ByteList]) -> Result<(), AllocError>
    ensures { OnOk result (string_bytes out.new ≡ string_bytes out.old ++ flat_map read_text lists.now) }
{
    for list in lists {
        push_read(alloc, out, list.items())?;
    }
    Ok(())
}

/// The words of the arguments.
fn arguments(words: &[u32], count: u8) -> &[u32]
    ensures { result.now ≡ take count words.now }
{
    let count = usize::from(count);
    if count < words.len() {
        &words[..count]
    } else {
        words
    }
}

/// Puts the line of a call behind a text. The function is named by its key.
pub fn push_event(
    alloc: Global,
    out: &mut String,
    program: &Program,
    seen: &Seen,
) -> Result<(), AllocError>
    ensures { OnOk result (string_bytes out.new ≡ string_bytes out.old ++ event_text program.now.units seen.now) }
{
    out.push_str("call ")?;
    push_name(out, program, seen.event.number)?;
    push_words(out, arguments(&seen.event.words, seen.event.count))?;
    push_reads(alloc, out, seen.read.items())?;
    out.push_str("\n")
}
