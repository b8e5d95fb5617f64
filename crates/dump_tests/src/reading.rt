use crate::rows::{Place, limits, places, rows_of};
use asm_syntax::path::{Path, Step};
use asm_syntax::unit::{Reply, Unit};
use dump_reader::{DumpError, read_replies, read_unit};
use std::alloc::Global;
use std::test::Fail;

/// The steps of a path, each behind a slash.
fn steps(alloc: Global, path: &Path) -> Result<String, Fail> {
    let mut text = String::new(alloc);
    for step in path.items() {
        let step = match step {
            Step::Key(name) => format!(in alloc; "/{}", name.text())?,
            Step::Index(index) => format!(in alloc; "/{index}")?,
        };
        text.push_str(step.as_str())?;
    }
    Ok(text)
}

/// An error as its number, its reason, its path, and the number of its shape or its limit.
fn shown(alloc: Global, error: &DumpError) -> Result<String, Fail> {
    let number = error.number();
    let (reason, path, detail) = match error {
        DumpError::NotJson => return Ok(format!(in alloc; "{number} not-json")?),
        DumpError::Memory => return Ok(format!(in alloc; "{number} memory")?),
        DumpError::Missing(path) => ("missing", path, 0),
        DumpError::WrongKind(path) => ("wrong-kind", path, 0),
        DumpError::OutOfRange(path) => ("out-of-range", path, 0),
        DumpError::UnknownWord(path) => ("unknown-word", path, 0),
        DumpError::Version(path) => ("version", path, 0),
        DumpError::Shape(path, error) => ("shape", path, u32::from(error.number())),
        DumpError::Refused(path) => ("refused", path, 0),
        DumpError::Limit(path, limit) => ("limit", path, *limit),
    };
    let path = steps(alloc, path)?;
    if detail == 0 {
        return Ok(format!(in alloc; "{number} {reason} {path}")?);
    }
    Ok(format!(in alloc; "{number} {reason} {path} {detail}")?)
}

fn shown_first(alloc: Global, unit: &Unit) -> Result<String, Fail> {
    let function = unit.functions.items().first().ok_or("a function")?;
    let first = function.code.items().first().ok_or("an instruction")?;
    Ok(format!(in alloc; "{first:?}")?)
}

fn shown_buffers(alloc: Global, unit: &Unit) -> Result<String, Fail> {
    let external = unit.externals.items().first().ok_or("an external")?;
    let sig = external.sig.as_ref().ok_or("a signature")?;
    Ok(format!(in alloc; "{:?}", sig.buffers)?)
}

fn shown_unit(alloc: Global, place: Place, unit: &Unit) -> Result<String, Fail> {
    match place {
        Place::Instruction => shown_first(alloc, unit),
        Place::Buffers => shown_buffers(alloc, unit),
        _ => Ok(String::from_str(alloc, "unit")?),
    }
}

/// The registers of a reply that the two forms differ in, two others, and the digits of its fills.
fn shown_reply(alloc: Global, reply: &Reply) -> Result<String, Fail> {
    Ok(format!(in alloc;
        "{:x} {:x} {:x} {:x} {:?}; ",
        reply.r3, reply.r4, reply.r0, reply.xer, reply.fills
    )?)
}

fn shown_replies(alloc: Global, place: Place, replies: &[Reply]) -> Result<String, Fail> {
    if place != Place::Values {
        return Ok(String::from_str(alloc, "replies")?);
    }
    let mut shown = String::new(alloc);
    for reply in replies {
        shown.push_str(shown_reply(alloc, reply)?.as_str())?;
    }
    Ok(shown)
}

fn answer_of_unit(alloc: Global, place: Place, text: &[u8]) -> Result<String, Fail> {
    match &read_unit(alloc, text) {
        Ok(unit) => shown_unit(alloc, place, unit),
        Err(error) => shown(alloc, error),
    }
}

fn answer_of_replies(alloc: Global, place: Place, text: &[u8]) -> Result<String, Fail> {
    match &read_replies(alloc, text) {
        Ok(replies) => shown_replies(alloc, place, replies.items()),
        Err(error) => shown(alloc, error),
    }
}

/// What stands before and behind a text at its place.
fn frame_of(place: Place) -> (&'static str, &'static str) {
    match place {
        Place::Text | Place::ReplyText => ("", ""),
        Place::Lists => (r#"{"valex":"unit","version":1,"unit":"a.c","#, "}"),
        Place::Functions => (
            r#"{"valex":"unit","version":1,"unit":"a.c","functions":["#,
            r#"],"variables":[],"externals":[]}"#,
        ),
        Place::Variables => (
            r#"{"valex":"unit","version":1,"unit":"a.c","functions":[],"variables":["#,
            r#"],"externals":[]}"#,
        ),
        Place::Externals => (
            r#"{"valex":"unit","version":1,"unit":"a.c","functions":[],"variables":[],"externals":["#,
            "]}",
        ),
        Place::Code => (
            r#"{"valex":"unit","version":1,"unit":"a.c","functions":[{"name":"main","static":false,"code":["#,
            r#"]}],"variables":[],"externals":[]}"#,
        ),
        Place::Instruction => (
            r#"{"valex":"unit","version":1,"unit":"a.c","functions":[{"name":"main","static":true,"code":["#,
            r#",["label",1],["blr"]]}],"variables":[],"externals":[]}"#,
        ),
        Place::Labels => (
            r#"{"valex":"unit","version":1,"unit":"a.c","functions":[{"name":"main","static":false,"code":[["label",1],["btbl",3,["#,
            r#"]]]}],"variables":[],"externals":[]}"#,
        ),
        Place::Init => (
            r#"{"valex":"unit","version":1,"unit":"a.c","functions":[],"variables":[{"name":"v","static":true,"writable":true,"align":4,"init":["#,
            r#"]}],"externals":[]}"#,
        ),
        Place::Signature1 => (
            r#"{"valex":"unit","version":1,"unit":"a.c","functions":[],"variables":[],"externals":[{"name":"e","sig":"#,
            "}]}",
        ),
        Place::Signature2 | Place::Buffers => (
            r#"{"valex":"unit","version":2,"unit":"a.c","functions":[],"variables":[],"externals":[{"name":"e","sig":"#,
            "}]}",
        ),
        Place::Replies1 => (r#"{"valex":"replies","version":1,"replies":["#, "]}"),
        Place::Replies2 | Place::Values => (r#"{"valex":"replies","version":2,"replies":["#, "]}"),
        Place::Fill => (
            r#"{"valex":"replies","version":2,"replies":[{"r3":0,"r4":0,"fills":[""#,
            r#""]}]}"#,
        ),
    }
}

fn holds_replies(place: Place) -> bool {
    matches!(
        place,
        Place::ReplyText | Place::Replies1 | Place::Replies2 | Place::Values | Place::Fill
    )
}

/// What is answered to a text at its place.
fn answer(alloc: Global, place: Place, text: &str) -> Result<String, Fail> {
    let (front, back) = frame_of(place);
    let text = format!(in alloc; "{front}{text}{back}")?;
    if holds_replies(place) {
        answer_of_replies(alloc, place, text.as_bytes())
    } else {
        answer_of_unit(alloc, place, text.as_bytes())
    }
}

/// The first row with another answer, and that answer.
fn wrong_row(alloc: Global, place: Place) -> Result<String, Fail> {
    for (text, want) in rows_of(place) {
        let found = answer(alloc, place, text)?;
        if found.as_str() != *want {
            return Ok(format!(in alloc; "{text}: {found}")?);
        }
    }
    Ok(String::new(alloc))
}

#[test]
fn each_row_has_its_answer(rt: HostRuntime) -> Result<(), Fail> {
    for place in places() {
        assert_eq!(rt; wrong_row(rt.alloc(), *place)?.as_str(), "");
    }
    Ok(())
}

#[test]
fn bytes_that_are_no_text(rt: HostRuntime) -> Result<(), Fail> {
    let found = answer_of_unit(rt.alloc(), Place::Text, b"\"\xff\"")?;
    assert_eq!(rt; found.as_str(), "1 not-json");
    Ok(())
}

/// What so many items at a place answer.
fn answer_to_many(alloc: Global, place: Place, count: u32) -> Result<String, Fail> {
    let item = if place == Place::Fill { "00" } else { "1," };
    let many = item.repeat(alloc, count as usize)?;
    answer(alloc, place, many.trim_end_matches(","))
}

#[test]
fn limits_are_told(rt: HostRuntime) -> Result<(), Fail> {
    for (place, count, want) in limits() {
        let found = answer_to_many(rt.alloc(), *place, *count)?;
        assert_eq!(rt; found.as_str(), *want, "{count}");
    }
    Ok(())
}
