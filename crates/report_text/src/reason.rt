//! Why a file is refused, in print.

ghost use Rattle.std.specs.Prelude.{◌≡◌, [], ◌∷◌, IfOk, decimal, string_bytes};
ghost use Rattle.text_model.specs.Lines.{line};
ghost use Rattle.report_text.specs.Reasons.{
  dump_extra,
  dump_path,
  dump_reason,
  dump_word,
  elf_extra,
  elf_reason,
  elf_word,
  layout_extra,
  layout_place,
  layout_reason,
  layout_word,
  link_name,
  link_reason,
  link_word,
  reason_of,
  reason_seen,
  reason_words,
  refused_line,
};

use crate::path::path_text;
use asm_syntax::name::Name;
use asm_syntax::path::Step;
use dump_reader::DumpError;
use image_model::error::ElfError;
use judge_model::refusal::Refusal;
use layout_file::error::LayoutError;
use link_model::link_error::LinkError;
use std::alloc::{AllocError, Global};
use std::fmt::Write;

/// The kind of file, the number and the word of a reason, its place, and a number behind the place.
#[derive(Clone, Copy, Debug)]
pub struct Reason<'a> {
    pub part: &'a str,
    pub number: u32,
    pub word: &'a str,
    pub place: &'a str,
    pub extra: Option<u32>,
}

fn line_without_extra(alloc: Global, file: &str, reason: &Reason) -> Result<String, AllocError>
    ensures { IfOk result (λ t. string_bytes t ≡ line (reason_words file.now (reason_seen reason.now) [])) }
{
    let part = reason.part;
    let number = reason.number;
    let word = reason.word;
    let place = reason.place;
    format!(in alloc; "refused {file} {part} {number} {word} {place}\n")
}

fn line_with_extra(
    alloc: Global,
    file: &str,
    reason: &Reason,
    extra: u32,
) -> Result<String, AllocError>
    ensures { IfOk result (λ t. string_bytes t ≡ line (reason_words file.now (reason_seen reason.now) (decimal extra ∷ []))) }
{
    let part = reason.part;
    let number = reason.number;
    let word = reason.word;
    let place = reason.place;
    let mut out = format!(in alloc; "refused {file} {part} ")?;
    write!(out, "{number} {word} {place} {extra}\n")?;
    Ok(out)
}

/// The line on a file that is refused.
pub fn refused_line(alloc: Global, file: &str, reason: &Reason) -> Result<String, AllocError>
    ensures { IfOk result (λ t. string_bytes t ≡ refused_line file.now (reason_seen reason.now)) }
{
    match reason.extra {
        None => line_without_extra(alloc, file, reason),
        Some(extra) => line_with_extra(alloc, file, reason, extra),
    }
}

fn elf_word(e: ElfError) -> &'static str
    ensures { result.now ≡ elf_word e }
{
    match e {
        ElfError::Short(_) => "short",
        ElfError::Ident(_) => "ident",
        ElfError::Kind(_) => "kind",
        ElfError::Machine(_) => "machine",
        ElfError::EntrySize(_) => "entry-size",
        ElfError::Dynamic(_) => "dynamic",
        ElfError::SegRange(_) => "seg-range",
        ElfError::SegOverlap(_) => "seg-overlap",
        ElfError::NoSymtab(_) => "no-symtab",
        ElfError::TwoSymtabs(_) => "two-symtabs",
        ElfError::SymRange(_) => "sym-range",
        ElfError::NameEnd(_) => "name-end",
        ElfError::Limit(_, _) => "limit",
    }
}

fn elf_extra(e: ElfError) -> Option<u32>
    ensures { result ≡ elf_extra e }
{
    match e {
        ElfError::Limit(_, most) => Some(most),
        _ => None,
    }
}

fn elf_line(alloc: Global, file: &str, e: ElfError) -> Result<String, AllocError>
    ensures { IfOk result (λ t. string_bytes t ≡ refused_line file.now (elf_reason e)) }
{
    let offset = e.offset();
    let place = format!(in alloc; "{offset}")?;
    let reason = Reason {
        part: "elf",
        number: e.number(),
        word: elf_word(e),
        place: place.as_str(),
        extra: elf_extra(e),
    };
    refused_line(alloc, file, &reason)
}

fn dump_word(e: &DumpError) -> &'static str
    ensures { result.now ≡ dump_word e.now }
{
    match e {
        DumpError::NotJson => "not-json",
        DumpError::Missing(_) => "missing",
        DumpError::WrongKind(_) => "wrong-kind",
        DumpError::OutOfRange(_) => "out-of-range",
        DumpError::UnknownWord(_) => "unknown-word",
        DumpError::Version(_) => "version",
        DumpError::Shape(..) => "shape",
        DumpError::Refused(_) => "refused",
        DumpError::Limit(..) => "limit",
        DumpError::Memory => "memory",
    }
}

fn dump_path(e: &DumpError) -> &[Step]
    ensures { result.now ≡ dump_path e.now }
{
    match e {
        DumpError::NotJson | DumpError::Memory => &[],
        DumpError::Missing(path)
        | DumpError::WrongKind(path)
        | DumpError::OutOfRange(path)
        | DumpError::UnknownWord(path)
        | DumpError::Version(path)
        | DumpError::Shape(path, _)
        | DumpError::Refused(path)
        | DumpError::Limit(path, _) => path.items(),
    }
}

fn dump_extra(e: &DumpError) -> Option<u32>
    ensures { result ≡ dump_extra e.now }
{
    match e {
        DumpError::Shape(_, shape) => Some(u32::from(shape.number())),
        DumpError::Limit(_, limit) => Some(*limit),
        _ => None,
    }
}

fn dump_line(alloc: Global, file: &str, part: &str, e: &DumpError) -> Result<String, AllocError>
    ensures { IfOk result (λ t. string_bytes t ≡ refused_line file.now (dump_reason part.now e.now)) }
{
    let place = path_text(alloc, dump_path(e))?;
    let reason = Reason {
        part,
        number: u32::from(e.number()),
        word: dump_word(e),
        place: place.as_str(),
        extra: dump_extra(e),
    };
    refused_line(alloc, file, &reason)
}

fn layout_word(e: &LayoutError) -> &'static str
    ensures { result.now ≡ layout_word e.now }
{
    match e {
        LayoutError::NotJson => "not-json",
        LayoutError::Missing(_) => "missing",
        LayoutError::WrongKind(_) => "wrong-kind",
        LayoutError::OutOfRange(_) => "out-of-range",
        LayoutError::UnknownWord(_) => "unknown-word",
        LayoutError::Version(_) => "version",
        LayoutError::RangeOrder(_) => "range-order",
        LayoutError::RangeMeets(..) => "range-meets",
        LayoutError::Unaligned(_) => "unaligned",
        LayoutError::Memory => "memory",
        LayoutError::Limit(..) => "limit",
    }
}

fn layout_place(alloc: Global, e: &LayoutError) -> Result<String, AllocError>
    ensures { IfOk result (λ t. string_bytes t ≡ layout_place e.now) }
{
    match e {
        LayoutError::RangeMeets(earlier, _) => format!(in alloc; "{earlier}"),
        LayoutError::NotJson | LayoutError::Memory => path_text(alloc, &[]),
        LayoutError::Missing(path)
        | LayoutError::WrongKind(path)
        | LayoutError::OutOfRange(path)
        | LayoutError::UnknownWord(path)
        | LayoutError::Version(path)
        | LayoutError::RangeOrder(path)
        | LayoutError::Unaligned(path)
        | LayoutError::Limit(path, _) => path_text(alloc, path.items()),
    }
}

fn layout_extra(e: &LayoutError) -> Option<u32>
    ensures { result ≡ layout_extra e.now }
{
    match e {
        LayoutError::RangeMeets(_, later) => Some(*later),
        LayoutError::Limit(_, limit) => Some(*limit),
        _ => None,
    }
}

fn layout_line(alloc: Global, file: &str, e: &LayoutError) -> Result<String, AllocError>
    ensures { IfOk result (λ t. string_bytes t ≡ refused_line file.now (layout_reason e.now)) }
{
    let place = layout_place(alloc, e)?;
    let reason = Reason {
        part: "layout",
        number: e.number(),
        word: layout_word(e),
        place: place.as_str(),
        extra: layout_extra(e),
    };
    refused_line(alloc, file, &reason)
}

fn link_word(e: &LinkError) -> &'static str
    ensures { result.now ≡ link_word e.now }
{
    match e {
        LinkError::UnitTwice(_) => "unit-twice",
        LinkError::DefinedTwice(..) => "defined-twice",
        LinkError::Undeclared(..) => "undeclared",
        LinkError::SigDiffers(..) => "sig-differs",
        LinkError::NoEntry => "no-entry",
        LinkError::Memory => "memory",
        LinkError::TooBig(..) => "too-big",
    }
}

fn link_name<'a>(unit: &'a Name, e: &'a LinkError) -> &'a str
    ensures { result.now ≡ link_name unit.now e.now }
{
    match e {
        LinkError::DefinedTwice(_, name)
        | LinkError::Undeclared(_, name)
        | LinkError::SigDiffers(_, name)
        | LinkError::TooBig(_, name) => name.text(),
        LinkError::UnitTwice(_) | LinkError::NoEntry | LinkError::Memory => unit.text(),
    }
}

fn link_line(alloc: Global, file: &str, unit: &Name, e: &LinkError) -> Result<String, AllocError>
    ensures { IfOk result (λ t. string_bytes t ≡ refused_line file.now (link_reason unit.now e.now)) }
{
    let reason = Reason {
        part: "link",
        number: u32::from(e.number()),
        word: link_word(e),
        place: link_name(unit, e),
        extra: None,
    };
    refused_line(alloc, file, &reason)
}

/// The line on a file that is refused by what it says.
pub fn refusal_line(alloc: Global, file: &str, refusal: &Refusal) -> Result<String, AllocError>
    ensures { IfOk result (λ t. string_bytes t ≡ refused_line file.now (reason_of refusal.now)) }
{
    match refusal {
        Refusal::Layout(e) => layout_line(alloc, file, e),
        Refusal::Image(e) => elf_line(alloc, file, *e),
        Refusal::Unit(_, e) => dump_line(alloc, file, "dump", e),
        Refusal::Replies(e) => dump_line(alloc, file, "replies", e),
        Refusal::Link(_, unit, e) => link_line(alloc, file, unit, e),
        Refusal::Entry(name) => link_line(alloc, file, name, &LinkError::NoEntry),
    }
}
