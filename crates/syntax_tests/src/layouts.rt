//! Layouts that are read, and texts that are refused.

use asm_syntax::name::{Name, NameError};
use asm_syntax::path::Step;
use layout_file::error::LayoutError;
use layout_file::layout::Layout;
use layout_file::read_layout;
use std::alloc::{AllocError, Global};
use std::test::*;

const LAYOUT: &str =
    r#"{"valex":"layout","version":1,"entry":"main","stop":"0x10000000","stack":["0x20000000","0x20010000"],"r13":"0x10038000","r2":268730368,"areas":[{"name":"text","range":["0x10010000","0x10011000"],"kind":"code"}],"foreign":[["0x10020000","0x10020100"]],"pins":[{"unit":"a.c","name":"h","address":"0x10018000"},{"unit":null,"name":"h","address":268533768}]}"#;

/// The text, which proofs need not see.
fn layout_text() -> &'static str {
    LAYOUT
}

/// The layout's text with one part of it in another form.
fn with_part(alloc: Global, old: &str, new: &str) -> Result<String, AllocError> {
    match layout_text().split_once(old) {
        Some((front, back)) => format!(in alloc; "{front}{new}{back}"),
        None => String::from_str(alloc, "the part is not in the text"),
    }
}

fn word_of(error: &LayoutError) -> &str {
    match error {
        LayoutError::NotJson => "not-json",
        LayoutError::Missing(_) => "missing",
        LayoutError::WrongKind(_) => "wrong-kind",
        LayoutError::OutOfRange(_) => "out-of-range",
        LayoutError::UnknownWord(_) => "unknown-word",
        LayoutError::Version(_) => "version",
        LayoutError::RangeOrder(_) => "range-order",
        LayoutError::RangeMeets(..) => "range-meets",
        LayoutError::Unaligned(_) => "unaligned",
        LayoutError::Memory => "memory",
        LayoutError::Limit(..) => "limit",
    }
}

fn steps_of(error: &LayoutError) -> &[Step] {
    match error {
        LayoutError::Missing(path)
        | LayoutError::WrongKind(path)
        | LayoutError::OutOfRange(path)
        | LayoutError::UnknownWord(path)
        | LayoutError::Version(path)
        | LayoutError::RangeOrder(path)
        | LayoutError::Unaligned(path)
        | LayoutError::Limit(path, _) => path.items(),
        _ => &[],
    }
}

/// The numbers of the ranges that meet, or the limit, each behind a space.
fn detail_of(alloc: Global, error: &LayoutError) -> Result<String, AllocError> {
    match error {
        LayoutError::RangeMeets(earlier, later) => format!(in alloc; " {earlier} {later}"),
        LayoutError::Limit(_, limit) => format!(in alloc; " {limit}"),
        _ => Ok(String::new(alloc)),
    }
}

fn step_text(alloc: Global, step: &Step) -> Result<String, AllocError> {
    match step {
        Step::Key(name) => format!(in alloc; "/{}", name.text()),
        Step::Index(index) => format!(in alloc; "/{index}"),
    }
}

/// The number of an error, its word, its path and its detail.
fn told(alloc: Global, error: &LayoutError) -> Result<String, AllocError> {
    let mut text = format!(in alloc; "{} {}", error.number(), word_of(error))?;
    for step in steps_of(error) {
        text.push_str(step_text(alloc, step)?.as_str())?;
    }
    text.push_str(detail_of(alloc, error)?.as_str())?;
    Ok(text)
}

fn members_of(alloc: Global, layout: &Layout) -> Result<String, AllocError> {
    let stack = layout.stack();
    format!(in alloc;
        "{} {:x} {:x} {:x} {:x} {:x}",
        layout.entry().text(),
        layout.stop(),
        stack.lo,
        stack.hi,
        layout.r13(),
        layout.r2()
    )
}

/// The kind of the first area, and the first area and the first foreign range, each after how many there are.
fn first_ranges(alloc: Global, layout: &Layout) -> Result<String, AllocError> {
    if layout.areas() == 0 || layout.foreign() == 0 {
        return String::from_str(alloc, "none");
    }
    let area = layout.area(0);
    format!(in alloc;
        "{:?}; {} {:x} {} {:x}",
        area.kind,
        layout.areas(),
        area.range.lo,
        layout.foreign(),
        layout.foreign_range(0).hi
    )
}

/// What holds the last address of a range, and the one behind it.
fn holders_of(alloc: Global, layout: &Layout) -> Result<String, AllocError> {
    format!(in alloc;
        "{:?} {:?} {} {}",
        layout.area_of(0x1001_0fff),
        layout.area_of(0x1001_1000),
        layout.is_foreign(0x1002_00ff),
        layout.is_foreign(0x1002_0100)
    )
}

/// The address that the name `h` is pinned to in a unit, or as a global name.
fn pin_of(alloc: Global, layout: &Layout, unit: Option<&[u8]>) -> Result<Option<u32>, NameError> {
    let name = Name::from_bytes(alloc, b"h")?;
    match unit {
        Some(unit) => Ok(layout.pin(Some(&Name::from_bytes(alloc, unit)?), &name)),
        None => Ok(layout.pin(None, &name)),
    }
}

fn pins_of(alloc: Global, layout: &Layout) -> Result<String, Fail> {
    let own = pin_of(alloc, layout, Some(b"a.c"))?;
    let global = pin_of(alloc, layout, None)?;
    let other = pin_of(alloc, layout, Some(b"b.c"))?;
    Ok(format!(in alloc; "{own:?} {global:?} {other:?}")?)
}

/// The kind of the first area, and then all that a layout answers.
fn shown(alloc: Global, layout: &Layout) -> Result<String, Fail> {
    let members = members_of(alloc, layout)?;
    let ranges = first_ranges(alloc, layout)?;
    let holders = holders_of(alloc, layout)?;
    let pins = pins_of(alloc, layout)?;
    Ok(format!(in alloc; "ok {ranges}; {members}; {holders}; {pins}")?)
}

/// What an answer is, as a text.
fn answer(alloc: Global, text: &[u8]) -> Result<String, Fail> {
    match &read_layout(alloc, text) {
        Ok(layout) => shown(alloc, layout),
        Err(error) => Ok(told(alloc, error)?),
    }
}

/// The answer to the layout with one part of it in another form.
fn answer_to(alloc: Global, old: &str, new: &str) -> Result<String, Fail> {
    let text = with_part(alloc, old, new)?;
    answer(alloc, text.as_bytes())
}

#[test]
fn a_layout_answers(rt: HostRuntime) -> Result<(), Fail> {
    assert_eq!(rt;
        answer(rt.alloc(), layout_text().as_bytes())?.as_str(),
        "ok Code; 1 10010000 1 10020100; main 10000000 20000000 20010000 10038000 10048000; Some(0) None true false; Some(268533760) Some(268533768) None"
    );
    Ok(())
}

#[test]
fn bytes_that_are_no_text(rt: HostRuntime) -> Result<(), Fail> {
    assert_eq!(rt; answer(rt.alloc(), b"\"\xff\"")?.as_str(), "1 not-json");
    Ok(())
}

/// A part of the layout, what stands in its place, and the answer up to the kind of the first area.
static PARTS: [(&str, &str, &str); 57] = [
    ("{", "{", "ok Code"),
    (r#""0x20010000""#, r#""0x20010008""#, "9 unaligned/stack"),
    (r#""0x20010000""#, r#""0x20000008""#, "7 range-order/stack"),
    (
        r#""0x20010000""#,
        r#""0x21000018""#,
        "11 limit/stack 16777216",
    ),
    (r#""0x20010000""#, r#""0x21000000""#, "ok Code"),
    (
        r#""0x20010000"]"#,
        r#""0x20010000",0]"#,
        "4 out-of-range/stack",
    ),
    (
        r#"["0x20000000","#,
        r#"["20000000","#,
        "4 out-of-range/stack/0",
    ),
    (r#""0x10000000""#, r#""0xffffffee""#, "7 range-order/stop"),
    (r#""0x10000000""#, r#""0xFFFFFFEC""#, "ok Code"),
    (r#""0x10000000""#, "0", "7 range-order/stop"),
    (r#""0x10011000""#, r#""0xfffffff0""#, "8 range-meets 0 1"),
    (
        r#"["0x10010000","0x10011000"]"#,
        r#"["0xffffff00","0xfffffff0"]"#,
        "ok Code",
    ),
    (
        r#"["0x10010000","0x10011000"]"#,
        r#"["0x10010000","0x10010000"]"#,
        "7 range-order/areas/0/range",
    ),
    (
        r#"["0x10010000","0x10011000"]"#,
        r#"["0x10010000","0x10010001"]"#,
        "ok Code",
    ),
    (
        r#"["0x10020000","0x10020100"]"#,
        r#"[0,1]"#,
        "7 range-order/foreign/0",
    ),
    (
        r#"["0x10020000","0x10020100"]"#,
        r#"["0x","0x10020100"]"#,
        "4 out-of-range/foreign/0/0",
    ),
    (
        r#"["0x10020000","0x10020100"]"#,
        r#"["0X10020000","0x10020100"]"#,
        "4 out-of-range/foreign/0/0",
    ),
    (
        r#"["0x10020000","0x10020100"]"#,
        r#"["0x10020000",{}]"#,
        "3 wrong-kind/foreign/0/1",
    ),
    (
        r#"["0x10020000","0x10020100"]"#,
        "[268566528,268566784]",
        "ok Code",
    ),
    (
        r#"["0x20000000","0x20010000"]"#,
        r#"["0x2000fff0","0x20010000"]"#,
        "ok Code",
    ),
    (
        r#"["0x20000000","0x20010000"]"#,
        r#"["0x2000fff1","0x20010000"]"#,
        "7 range-order/stack",
    ),
    (
        r#"["0x20000000","0x20010000"]"#,
        r#"["0x10010800","0x20000001"]"#,
        "11 limit/stack 16777216",
    ),
    (
        r#""0x10018000""#,
        r#""0x""#,
        "4 out-of-range/pins/0/address",
    ),
    (r#""0x10000000""#, r#""0x10000002""#, "9 unaligned/stop"),
    (
        r#"["0x10010000","0x10011000"]"#,
        r#"["0x10011000","0x10010000"]"#,
        "7 range-order/areas/0/range",
    ),
    (
        r#""0x10011000""#,
        r#""0xfffffff1""#,
        "7 range-order/areas/0/range",
    ),
    (
        r#"["0x10020000","0x10020100"]"#,
        r#"["0x10010800","0x10012000"]"#,
        "8 range-meets 1 2",
    ),
    (
        r#"["0x10020000","0x10020100"]"#,
        r#"["0x0ffffffc","0x20000001"]"#,
        "8 range-meets 0 2",
    ),
    (
        r#"["0x10020000","0x10020100"]"#,
        r#"["0x10000003","0x10000004"]"#,
        "8 range-meets 2 3",
    ),
    (
        r#""kind":"code""#,
        r#""kind":"Code""#,
        "5 unknown-word/areas/0/kind",
    ),
    (
        r#""name":"text""#,
        r#""name":"""#,
        "4 out-of-range/areas/0/name",
    ),
    (
        r#""name":"text""#,
        r#""name":"the text""#,
        "4 out-of-range/areas/0/name",
    ),
    (r#","foreign":"#, r#","foreigner":"#, "2 missing/foreign"),
    (
        r#""r2":268730368"#,
        r#""r2":4294967296"#,
        "4 out-of-range/r2",
    ),
    (
        r#""r13":"0x10038000""#,
        r#""r13":"0x100380000""#,
        "4 out-of-range/r13",
    ),
    (r#""entry":"main""#, r#""entry":7"#, "3 wrong-kind/entry"),
    (
        r#""unit":null,"name":"h","address":268533768"#,
        r#""unit":"a.c","name":"h","address":true"#,
        "4 out-of-range/pins/1/name",
    ),
    (
        r#""unit":null,"name":"h""#,
        r#""unit":"","name":"h""#,
        "4 out-of-range/pins/1/unit",
    ),
    ("268533768", "268533768.0", "3 wrong-kind/pins/1/address"),
    (
        r#""valex":"layout""#,
        r#""valex":"unit""#,
        "5 unknown-word/valex",
    ),
    (r#""version":1"#, r#""version":2"#, "6 version/version"),
    (r#""version":1"#, r#""version":-1"#, "6 version/version"),
    (r#""version":1"#, r#""version":1.0"#, "3 wrong-kind/version"),
    (r#""version":1"#, r#""version":-0"#, "3 wrong-kind/version"),
    (
        r#""version":1"#,
        r#""version":18446744073709551616"#,
        "3 wrong-kind/version",
    ),
    (r#""version":1"#, r#""version":2,"version":1"#, "ok Code"),
    (
        r#""version":1"#,
        r#""version":1,"version":2"#,
        "6 version/version",
    ),
    ("{", r#"{"more":1e999,"#, "1 not-json"),
    ("{", r#"{"more":"\ud800","#, "1 not-json"),
    ("{", "\u{feff}{", "1 not-json"),
    ("{", "[", "1 not-json"),
    (r#""kind":"code""#, r#""kind":"const""#, "ok Fixed"),
    (r#""kind":"code""#, r#""kind":"data""#, "ok Writable"),
    (r#""kind":"code""#, r#""kind":"sda13""#, "ok Sda13"),
    (r#""kind":"code""#, r#""kind":"sda2""#, "ok Sda2"),
    (r#""kind":"code""#, r#""kind":"sda0""#, "ok Sda0"),
    (LAYOUT, "[]", "3 wrong-kind"),
];

fn parts() -> &'static [(&'static str, &'static str, &'static str)] {
    &PARTS
}

/// A text up to its first semicolon.
fn head_of(text: &str) -> &str {
    match text.split_once(";") {
        Some((head, _)) => head,
        None => text,
    }
}

#[test]
fn the_first_fault_is_told(rt: HostRuntime) -> Result<(), Fail> {
    for (old, new, wanted) in parts() {
        let found = answer_to(rt.alloc(), old, new)?;
        assert_eq!(rt; head_of(found.as_str()), *wanted, "{old} as {new}");
    }
    Ok(())
}

/// A part of the layout, and in its place a text, an opening so many times, a closing as many times, and a text.
#[derive(Clone, Copy)]
struct Long {
    old: &'static str,
    front: &'static str,
    opening: &'static str,
    count: usize,
    closing: &'static str,
    back: &'static str,
    wanted: &'static str,
}

static LONGS: [Long; 15] = [
    Long {
        old: r#""entry":"main""#,
        front: r#""entry":""#,
        opening: "n",
        count: 255,
        closing: "",
        back: r#"""#,
        wanted: "ok Code",
    },
    Long {
        old: r#""entry":"main""#,
        front: r#""entry":""#,
        opening: "n",
        count: 256,
        closing: "",
        back: r#"""#,
        wanted: "4 out-of-range/entry",
    },
    Long {
        old: r#""name":"text""#,
        front: r#""name":""#,
        opening: "n",
        count: 63,
        closing: "",
        back: r#"""#,
        wanted: "ok Code",
    },
    Long {
        old: r#""name":"text""#,
        front: r#""name":""#,
        opening: "n",
        count: 64,
        closing: "",
        back: r#"""#,
        wanted: "4 out-of-range/areas/0/name",
    },
    Long {
        old: r#""name":"h""#,
        front: r#""name":""#,
        opening: "n",
        count: 255,
        closing: "",
        back: r#"""#,
        wanted: "ok Code",
    },
    Long {
        old: r#""name":"h""#,
        front: r#""name":""#,
        opening: "n",
        count: 256,
        closing: "",
        back: r#"""#,
        wanted: "4 out-of-range/pins/0/name",
    },
    Long {
        old: r#""unit":"a.c""#,
        front: r#""unit":""#,
        opening: "n",
        count: 255,
        closing: "",
        back: r#"""#,
        wanted: "ok Code",
    },
    Long {
        old: r#""unit":"a.c""#,
        front: r#""unit":""#,
        opening: "n",
        count: 256,
        closing: "",
        back: r#"""#,
        wanted: "4 out-of-range/pins/0/unit",
    },
    Long {
        old: "{",
        front: r#"{"more":"#,
        opening: "[",
        count: 126,
        closing: "]",
        back: ",",
        wanted: "ok Code",
    },
    Long {
        old: "{",
        front: r#"{"more":"#,
        opening: "[",
        count: 127,
        closing: "]",
        back: ",",
        wanted: "1 not-json",
    },
    Long {
        old: r#""areas":["#,
        front: r#""areas":["#,
        opening: "0,",
        count: 1_024,
        closing: "",
        back: r#"0],"more":["#,
        wanted: "11 limit/areas 1024",
    },
    Long {
        old: r#""areas":["#,
        front: r#""areas":["#,
        opening: "0,",
        count: 1_023,
        closing: "",
        back: r#"0],"more":["#,
        wanted: "3 wrong-kind/areas/0",
    },
    Long {
        old: r#""foreign":["#,
        front: r#""foreign":["#,
        opening: "0,",
        count: 1_024,
        closing: "",
        back: r#"0],"more":["#,
        wanted: "11 limit/foreign 1024",
    },
    Long {
        old: r#""pins":["#,
        front: r#""pins":["#,
        opening: "0,",
        count: 65_536,
        closing: "",
        back: r#"0],"more":["#,
        wanted: "11 limit/pins 65536",
    },
    Long {
        old: r#""pins":["#,
        front: r#""pins":["#,
        opening: "0,",
        count: 65_535,
        closing: "",
        back: r#"0],"more":["#,
        wanted: "3 wrong-kind/pins/0",
    },
];

fn longs() -> &'static [Long] {
    &LONGS
}

fn answer_to_long(alloc: Global, long: &Long) -> Result<String, Fail> {
    let opened = long.opening.repeat(alloc, long.count)?;
    let closed = long.closing.repeat(alloc, long.count)?;
    let new = format!(in alloc; "{}{opened}{closed}{}", long.front, long.back)?;
    answer_to(alloc, long.old, new.as_str())
}

#[test]
fn limits_are_told(rt: HostRuntime) -> Result<(), Fail> {
    for long in longs() {
        let found = answer_to_long(rt.alloc(), long)?;
        assert_eq!(rt;
            head_of(found.as_str()),
            long.wanted,
            "{} {}",
            long.front,
            long.count
        );
    }
    Ok(())
}
