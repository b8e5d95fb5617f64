//! The lines of an image.

ghost use Rattle.std.specs.Prelude.{◌≡◌, ◌++◌, IfOk, OnOk, string_bytes};
ghost use Rattle.elf_view.specs.Views.{segment_seen};
ghost use Rattle.show_text.specs.Show.{head_text, instruction_text, loaded_text, none_text, segment_text, show_text, word_text};

use crate::flags::Flags;
use elf_view::{ElfView, SegView};
use ppc_decode::decoding::decode;
use ppc_decode::text::text;
use std::alloc::{AllocError, Global};
use std::fmt::Write;
use word_ops::hexadecimal::Hexadecimal;

fn push_segment(out: &mut String, segment: &SegView) -> Result<(), AllocError>
    ensures { OnOk result (string_bytes out.new ≡ string_bytes out.old ++ segment_text (segment_seen segment.now)) }
{
    let vaddr = Hexadecimal(segment.vaddr);
    let held = segment.bytes.len();
    let memsz = segment.memsz;
    let flags = Flags(segment.flags);
    write!(out, "segment {vaddr} {held} {memsz} {flags}\n")
}

fn instruction_text(alloc: Global, word: u32, at: u32) -> Result<String, AllocError>
    ensures { IfOk result (λ t. string_bytes t ≡ instruction_text at word) }
{
    match decode(word) {
        Some(machine) => text(alloc, &machine, at),
        None => String::from_str(alloc, "?"),
    }
}

fn push_loaded(alloc: Global, out: &mut String, word: u32, at: u32) -> Result<(), AllocError>
    ensures { OnOk result (string_bytes out.new ≡ string_bytes out.old ++ loaded_text at word) }
{
    let instruction = instruction_text(alloc, word, at)?;
    let address = Hexadecimal(at);
    let word = Hexadecimal(word);
    write!(out, "{address} {word} {instruction}\n")
}

fn push_none(out: &mut String, at: u32) -> Result<(), AllocError>
    ensures { OnOk result (string_bytes out.new ≡ string_bytes out.old ++ none_text at) }
{
    let address = Hexadecimal(at);
    write!(out, "{address} none\n")
}

fn push_word(alloc: Global, out: &mut String, view: &ElfView, at: u64) -> Result<(), AllocError>
    ensures { OnOk result (string_bytes out.new ≡ string_bytes out.old ++ word_text view.now at) }
{
    if at >= 0x1_0000_0000 {
        return Ok(());
    }
    let at = at as u32;
    match view.word_at(at) {
        Some(word) => push_loaded(alloc, out, word, at),
        None => push_none(out, at),
    }
}

fn head_text(alloc: Global, view: &ElfView) -> Result<String, AllocError>
    ensures { IfOk result (λ t. string_bytes t ≡ head_text view.now) }
{
    let entry = Hexadecimal(view.entry());
    let mut out = format!(in alloc; "entry {entry}\n")?;
    for i in 0..view.segments() {
        push_segment(&mut out, &view.segment(i))?;
    }
    let symbols = view.symbols();
    write!(out, "symbols {symbols}\n")?;
    Ok(out)
}

/// The entry, the loaded segments and the number of symbols of an image, and so many of its words from an address on, each with its
/// instruction; none past the last address.
#[tactic(auto, unfolding(crate::specs::Show::show_text))]
pub fn show_text(
    alloc: Global,
    view: &ElfView,
    address: u32,
    count: u32,
) -> Result<String, AllocError>
    ensures { IfOk result (λ t. string_bytes t ≡ show_text view.now address count) }
{
    let mut out = head_text(alloc, view)?;
    for k in 0..count {
        push_word(alloc, &mut out, view, u64::from(address) + 4 * u64::from(k))?;
    }
    Ok(out)
}
