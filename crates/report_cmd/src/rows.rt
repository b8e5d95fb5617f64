//! The commands over files in memory: what they print, and their statuses.

use crate::answer::valex;
use crate::code_rows::code_programs;
use crate::data_rows::data_programs;
use crate::refused_rows::{images, layouts, replies, units};
use crate::run_rows::{run_programs, run_words};
use crate::upgrade_rows::upgrades;
use outside::mem_sink::MemSink;
use outside::mem_store::MemStore;
use std::alloc::{AllocError, Global};
use std::process::Abort;
use std::test::Fail;
use test_images::layouts::layout_of;
use test_images::lines::image_of;

const CHECK: &str = "check layout.json image.elf a.json";

const RUN: &str = "run layout.json image.elf replies.json 10 a.json";

const LAYOUT: &str = "area code 10010000 10011000";

const UNIT: &str =
    r#"{"valex":"unit","version":1,"unit":"a.c","functions":[{"name":"main","static":false,"code":[["addi",3,0,7],["blr"]]}],"variables":[],"externals":[]}"#;

/// Its code is at 84 of the file.
const IMAGE: &str =
    "entry 10010000\nsegment 10010000 5 8 38600007 4e800020\nsymbol 10010000 12 fff1 main";

const REPORT: &str =
    "yes\nfunctions 1 bytes 8\ntables 0 bytes 0\nvariables 0 bytes 0\nexternals 0\npadding 0\nforeign 0\nloaded 8\n10010000 10010008 function a.c main\n";

const USAGE: &str = "usage: valex check LAYOUT IMAGE UNIT...\n\
\x20      valex run LAYOUT IMAGE REPLIES STEPS UNIT...\n\
\x20      valex show IMAGE ADDRESS COUNT\n\
\x20      valex make SEED COUNT\n\
\x20      valex upgrade UNIT\n";

const REPLIES: &str =
    r#"{"valex":"replies","version":2,"replies":[7,[0,1],{"r3":0,"r4":0,"fills":["00"]}]}"#;

/// The first section of a kind in a program; no text where it has none.
fn section<'a>(program: &'a str, kind: &str) -> &'a str {
    for part in program.split("\n#") {
        if let Some((first, text)) = part.split_once('\n') {
            if first == kind {
                return text;
            }
        }
    }
    ""
}

fn words_of(alloc: Global, line: &str) -> Result<Vec<String>, AllocError> {
    let mut words = Vec::new(alloc);
    for word in line.split_whitespace() {
        words.push(word.to_string(alloc)?)?;
    }
    Ok(words)
}

/// The files that `CHECK` and `RUN` accept.
fn store_of(alloc: Global) -> Result<MemStore, Fail> {
    let mut store = MemStore::new(alloc);
    let layout = layout_of(alloc, LAYOUT).ok_or("a layout")?;
    let image = image_of(alloc, IMAGE).ok_or("an image")?;
    store.add("layout.json", layout.as_bytes())?;
    store.add("image.elf", &image)?;
    store.add("replies.json", REPLIES.as_bytes())?;
    store.add("a.json", UNIT.as_bytes())?;
    Ok(store)
}

/// Asserts what a command answers over a store.
fn answers(
    rt: &impl Abort,
    alloc: Global,
    words: &str,
    store: &mut MemStore,
    status: u8,
    text: &str,
) -> Result<(), Fail> {
    let words = words_of(alloc, words)?;
    let mut out = MemSink::new(alloc, 65_536, 65_536)?;
    assert_eq!(rt;
        valex(alloc, &words, store, &mut out),
        status,
        "before {text}"
    );
    let taken = std::str::from_utf8(out.taken())?;
    assert_eq!(rt; taken, text);
    Ok(())
}

/// The files of a program but its image.
fn program_store(alloc: Global, program: &str) -> Result<MemStore, Fail> {
    let mut store = MemStore::new(alloc);
    let lines = match section(program, "layout") {
        "" => LAYOUT,
        lines => lines,
    };
    let layout = layout_of(alloc, lines).ok_or("a layout")?;
    store.add("layout.json", layout.as_bytes())?;
    for name in ["a.json", "b.json"] {
        store.add(name, section(program, name).as_bytes())?;
    }
    Ok(store)
}

/// Asserts what `run` answers by its status, steps and replies.
fn runs(
    rt: &impl Abort,
    alloc: Global,
    units: &str,
    store: &mut MemStore,
    line: &str,
    text: &str,
) -> Result<(), Fail> {
    let (status, rest) = line.split_once(' ').ok_or("a status")?;
    let (steps, replies) = rest.split_once(' ').unwrap_or((rest, ""));
    let replies = format!(in alloc;
        "{{\"valex\":\"replies\",\"version\":2,\"replies\":[{replies}]}}"
    )?;
    store.add("replies.json", replies.as_bytes())?;
    let words = format!(in alloc; "run layout.json image.elf replies.json {steps} {units}")?;
    answers(
        rt,
        alloc,
        words.as_str(),
        store,
        status.parse::<u8>()?,
        text,
    )
}

/// Takes a section: an image, or asserts what `run` or `check` answers.
fn judges_by(
    rt: &impl Abort,
    alloc: Global,
    units: &str,
    store: &mut MemStore,
    kind: &str,
    text: &str,
) -> Result<(), Fail> {
    if kind == "image" {
        let image = image_of(alloc, text).ok_or("an image")?;
        return Ok(store.add("image.elf", &image)?);
    }
    let text = format!(in alloc; "{text}\n")?;
    if let Some(run) = kind.strip_prefix("run ") {
        return runs(rt, alloc, units, store, run, &text);
    }
    let Ok(status) = kind.parse::<u8>() else {
        return Ok(());
    };
    let check = format!(in alloc; "check layout.json image.elf {units}")?;
    answers(rt, alloc, &check, store, status, &text)
}

/// Asserts the answers on the images of a program.
fn judges(rt: &impl Abort, alloc: Global, program: &str) -> Result<(), Fail> {
    let units = match section(program, "b.json") {
        "" => "a.json",
        _ => "a.json b.json",
    };
    let mut store = program_store(alloc, program)?;
    for part in program.split("\n#") {
        let (kind, text) = part.split_once('\n').unwrap_or((part, ""));
        judges_by(rt, alloc, units, &mut store, kind, text)?;
    }
    Ok(())
}

#[test]
fn programs_of_functions(rt: HostRuntime) -> Result<(), Fail> {
    for program in code_programs() {
        judges(&rt, rt.alloc(), *program)?;
    }
    Ok(())
}

#[test]
fn programs_with_variables(rt: HostRuntime) -> Result<(), Fail> {
    for program in data_programs() {
        judges(&rt, rt.alloc(), *program)?;
    }
    Ok(())
}

#[test]
fn programs_that_run(rt: HostRuntime) -> Result<(), Fail> {
    for program in run_programs() {
        judges(&rt, rt.alloc(), *program)?;
    }
    Ok(())
}

/// Asserts what words answer, by `WORDS => STATUS TEXT`.
fn words_answer(rt: &impl Abort, alloc: Global, row: &str) -> Result<(), Fail> {
    let (words, answer) = row.split_once(" => ").ok_or("an answer")?;
    let (status, text) = answer.split_once(' ').ok_or("a text")?;
    let status = status.parse::<u8>()?;
    let mut store = store_of(alloc)?;
    store.add("x.json", b"{")?;
    if text == "usage" {
        return answers(rt, alloc, words, &mut store, status, USAGE);
    }
    let line = format!(in alloc; "{text}\n")?;
    answers(rt, alloc, words, &mut store, status, &line)
}

#[test]
fn words_of_runs(rt: HostRuntime) -> Result<(), Fail> {
    for row in run_words() {
        words_answer(&rt, rt.alloc(), *row)?;
    }
    Ok(())
}

/// A text with another one in place of a part of it.
fn changed(alloc: Global, text: &str, old: &str, new: &str) -> Result<String, Fail> {
    let (front, back) = text.split_once(old).ok_or("a part of the text")?;
    Ok(format!(in alloc; "{front}{new}{back}")?)
}

/// Asserts that a command refuses a file with each change of a text.
fn refuses(
    rt: &impl Abort,
    alloc: Global,
    words: &str,
    file: &str,
    base: &str,
    rows: &[(&str, &str, &str)],
) -> Result<(), Fail> {
    for (old, new, text) in rows {
        let content = changed(alloc, base, *old, *new)?;
        let mut store = store_of(alloc)?;
        store.add(file, content.as_bytes())?;
        answers(rt, alloc, words, &mut store, 3, *text)?;
    }
    Ok(())
}

#[test]
fn texts_that_are_refused(rt: HostRuntime) -> Result<(), Fail> {
    let layout = layout_of(rt.alloc(), LAYOUT).ok_or("a layout")?;
    for words in [CHECK, RUN] {
        refuses(&rt, rt.alloc(), words, "layout.json", &layout, layouts())?;
        refuses(&rt, rt.alloc(), words, "a.json", UNIT, units())?;
    }
    refuses(&rt, rt.alloc(), RUN, "replies.json", REPLIES, replies())
}

/// The image with other bytes at a place.
fn image_with(alloc: Global, place: usize, bytes: &[u8]) -> Result<Vec<u8>, Fail> {
    let mut image = image_of(alloc, IMAGE).ok_or("an image")?;
    for (i, byte) in bytes.iter().enumerate() {
        if let Some(old) = image.get_mut(place.wrapping_add(i)) {
            *old = *byte;
        }
    }
    Ok(image)
}

#[test]
fn images_that_are_refused(rt: HostRuntime) -> Result<(), Fail> {
    let alloc = rt.alloc();
    for (place, bytes, text) in images() {
        let mut store = store_of(alloc)?;
        store.add("image.elf", &image_with(alloc, *place, *bytes)?)?;
        for words in [CHECK, RUN, "show image.elf 0x10010000 3"] {
            answers(&rt, alloc, words, &mut store, 3, *text)?;
        }
    }
    Ok(())
}

#[test]
fn images_that_are_cut_or_meet(rt: HostRuntime) -> Result<(), Fail> {
    let alloc = rt.alloc();
    let image = image_of(alloc, IMAGE).ok_or("an image")?;
    let meeting = image_of(
        alloc,
        "entry 10010000\nsegment 10010000 5 8\nsegment 10010004 5 4",
    )
    .ok_or("an image")?;
    let table = [
        (image.as_slice(), 0, "refused image.elf elf 1 short 0\n"),
        (image.as_slice(), 51, "refused image.elf elf 1 short 51\n"),
        (image.as_slice(), 83, "refused image.elf elf 1 short 28\n"),
        (image.as_slice(), 249, "refused image.elf elf 1 short 32\n"),
        (
            meeting.as_slice(),
            65_536,
            "refused image.elf elf 8 seg-overlap 84\n",
        ),
    ];
    for (bytes, length, text) in table {
        let mut store = store_of(alloc)?;
        store.add("image.elf", bytes.get(..length).unwrap_or(bytes))?;
        answers(&rt, alloc, CHECK, &mut store, 3, text)?;
    }
    Ok(())
}

/// Asserts that the first image of a program with another byte at any of so many places does not match.
fn bytes_count(
    rt: &impl Abort,
    alloc: Global,
    program: &str,
    start: usize,
    count: usize,
) -> Result<(), Fail> {
    let words = words_of(alloc, CHECK)?;
    let mut store = program_store(alloc, program)?;
    for i in 0..count {
        let mut image = image_of(alloc, section(program, "image")).ok_or("an image")?;
        let byte = image.get_mut(start.wrapping_add(i)).ok_or("a byte")?;
        *byte ^= 1;
        store.add("image.elf", &image)?;
        let mut out = MemSink::new(alloc, 4096, 4096)?;
        assert_eq!(rt; valex(alloc, &words, &mut store, &mut out), 1, "byte {i}");
        assert!(rt; out.taken().starts_with(b"no\nrule "));
    }
    Ok(())
}

fn named(programs: &[&'static str], name: &str) -> Option<&'static str> {
    programs.iter().find(|text| text.starts_with(name)).copied()
}

#[test]
fn each_claimed_byte_counts(rt: HostRuntime) -> Result<(), Fail> {
    let table = named(run_programs(), "jump table").ok_or("a program")?;
    let load = named(data_programs(), "read-only load").ok_or("a program")?;
    bytes_count(&rt, rt.alloc(), table, 84, 60)?;
    bytes_count(&rt, rt.alloc(), load, 128, 4)
}

/// Which files there are, what stands in them, and what a command answers. `image` and `unit` stand for those that `CHECK` accepts.
type Case = (
    &'static str,
    &'static [(&'static str, &'static str)],
    u8,
    &'static str,
);

static CASES: [Case; 26] = [
    (
        "check layout.json image.elf a.json",
        &[
            ("layout.json", "layout"),
            ("image.elf", "image"),
            ("a.json", "unit"),
        ],
        0,
        REPORT,
    ),
    (
        "check l i u",
        &[("l", "layout"), ("i", "image"), ("u", "unit")],
        0,
        REPORT,
    ),
    (
        "check a.json image.elf a.json",
        &[("image.elf", "image"), ("a.json", "unit")],
        3,
        "refused a.json layout 5 unknown-word valex\n",
    ),
    (
        "check layout.json a.json image.elf",
        &[
            ("layout.json", "layout"),
            ("image.elf", "image"),
            ("a.json", "unit"),
        ],
        3,
        "refused a.json elf 2 ident 0\n",
    ),
    (
        "check layout.json image.elf layout.json",
        &[("layout.json", "layout"), ("image.elf", "image")],
        3,
        "refused layout.json dump 5 unknown-word valex\n",
    ),
    (
        "check layout.json image.elf a.json a.json",
        &[
            ("layout.json", "layout"),
            ("image.elf", "image"),
            ("a.json", "unit"),
        ],
        3,
        "refused a.json link 1 unit-twice a.c\n",
    ),
    (
        "check layout.json image.elf a.json",
        &[("image.elf", "image"), ("a.json", "unit")],
        4,
        "read fault layout.json\n",
    ),
    (
        "check layout.json image.elf a.json",
        &[("layout.json", "layout"), ("a.json", "unit")],
        4,
        "read fault image.elf\n",
    ),
    (
        "check layout.json image.elf a.json",
        &[("layout.json", "layout"), ("image.elf", "image")],
        4,
        "read fault a.json\n",
    ),
    (
        "check layout.json image.elf a.json b.json",
        &[
            ("layout.json", "layout"),
            ("image.elf", "image"),
            ("a.json", "unit"),
        ],
        4,
        "read fault b.json\n",
    ),
    (
        "check layout.json image.elf a.json",
        &[("layout.json", "{"), ("a.json", "unit")],
        4,
        "read fault image.elf\n",
    ),
    (
        "check layout.json image.elf a.json",
        &[("layout.json", "{"), ("image.elf", ""), ("a.json", "{")],
        3,
        "refused layout.json layout 1 not-json .\n",
    ),
    (
        "check layout.json image.elf a.json",
        &[
            ("layout.json", "layout"),
            ("image.elf", ""),
            ("a.json", "{"),
        ],
        3,
        "refused image.elf elf 1 short 0\n",
    ),
    (
        "check layout.json image.elf a.json b.json",
        &[
            ("layout.json", "layout"),
            ("image.elf", "image"),
            ("a.json", "{"),
            ("b.json", "[]"),
        ],
        3,
        "refused a.json dump 1 not-json .\n",
    ),
    (
        "check layout.json image.elf a.json b.json",
        &[
            ("layout.json", "layout"),
            ("image.elf", "image"),
            ("a.json", "unit"),
            ("b.json", "[]"),
        ],
        3,
        "refused b.json dump 3 wrong-kind .\n",
    ),
    ("check", &[], 2, USAGE),
    ("", &[], 2, USAGE),
    (
        "check layout.json image.elf",
        &[("layout.json", "layout"), ("image.elf", "image")],
        2,
        USAGE,
    ),
    (
        "check layout.json image.elf -a.json",
        &[
            ("layout.json", "layout"),
            ("image.elf", "image"),
            ("-a.json", "unit"),
        ],
        2,
        USAGE,
    ),
    (
        "show image.elf 0x10010000 3",
        &[("image.elf", "image")],
        0,
        "entry 10010000\nsegment 10010000 8 8 r-x\nsymbols 2\n10010000 38600007 addi 3,0,7\n10010004 4e800020 blr\n10010008 none\n",
    ),
    (
        "show image.elf 0xfffffffc 65536",
        &[("image.elf", "image")],
        0,
        "entry 10010000\nsegment 10010000 8 8 r-x\nsymbols 2\nfffffffc none\n",
    ),
    (
        "show image.elf 0x10010002 3",
        &[("image.elf", "image")],
        2,
        USAGE,
    ),
    (
        "show image.elf 0x10010000 3",
        &[],
        4,
        "read fault image.elf\n",
    ),
    (
        "show a.json 0x10010000 3",
        &[("a.json", "unit")],
        3,
        "refused a.json elf 2 ident 0\n",
    ),
    ("upgrade a.json", &[], 4, "read fault a.json\n"),
    (
        "upgrade layout.json",
        &[("layout.json", "layout")],
        3,
        "refused layout.json dump 5 unknown-word valex\n",
    ),
];

fn cases() -> &'static [Case] {
    &CASES
}

fn add(alloc: Global, store: &mut MemStore, name: &str, content: &str) -> Result<(), Fail> {
    match content {
        "layout" => {
            let layout = layout_of(alloc, LAYOUT).ok_or("a layout")?;
            store.add(name, layout.as_bytes())?;
        }
        "image" => store.add(name, &image_of(alloc, IMAGE).ok_or("an image")?)?,
        "unit" => store.add(name, UNIT.as_bytes())?,
        text => store.add(name, text.as_bytes())?,
    }
    Ok(())
}

#[test]
fn files_in_their_order(rt: HostRuntime) -> Result<(), Fail> {
    let alloc = rt.alloc();
    for (words, files, status, text) in cases() {
        let mut store = MemStore::new(alloc);
        for (name, content) in *files {
            add(alloc, &mut store, *name, *content)?;
        }
        answers(&rt, alloc, *words, &mut store, *status, *text)?;
    }
    Ok(())
}

/// Asserts the text that `upgrade` writes of a unit, which it keeps.
fn upgrades_to(rt: &impl Abort, alloc: Global, unit: &str, upgraded: &str) -> Result<(), Fail> {
    let wanted = format!(in alloc; "{upgraded}\n")?;
    let mut store = store_of(alloc)?;
    store.add("a.json", unit.as_bytes())?;
    answers(rt, alloc, "upgrade a.json", &mut store, 0, &wanted)?;
    store.add("a.json", wanted.as_bytes())?;
    answers(rt, alloc, "upgrade a.json", &mut store, 0, &wanted)
}

#[test]
fn units_of_the_newest_version(rt: HostRuntime) -> Result<(), Fail> {
    for (unit, upgraded) in upgrades() {
        upgrades_to(&rt, rt.alloc(), *unit, *upgraded)?;
    }
    refuses(&rt, rt.alloc(), "upgrade a.json", "a.json", UNIT, units())
}

/// The command, the file that is so long, and what is told.
static LONG: [(&str, &str, usize, &str); 7] = [
    (
        CHECK,
        "layout.json",
        8_388_609,
        "refused layout.json store 1 too-long 8388608\n",
    ),
    (
        CHECK,
        "image.elf",
        33_554_433,
        "refused image.elf store 1 too-long 33554432\n",
    ),
    (
        CHECK,
        "image.elf",
        33_554_432,
        "refused image.elf elf 2 ident 0\n",
    ),
    (
        CHECK,
        "a.json",
        8_388_609,
        "refused a.json store 1 too-long 8388608\n",
    ),
    (
        RUN,
        "replies.json",
        8_388_609,
        "refused replies.json store 1 too-long 8388608\n",
    ),
    (
        "show image.elf 0x0 1",
        "image.elf",
        33_554_433,
        "refused image.elf store 1 too-long 33554432\n",
    ),
    (
        "upgrade a.json",
        "a.json",
        8_388_609,
        "refused a.json store 1 too-long 8388608\n",
    ),
];

fn long_rows() -> &'static [(&'static str, &'static str, usize, &'static str)] {
    &LONG
}

#[test]
fn files_that_are_too_long(rt: HostRuntime) -> Result<(), Fail> {
    for (words, name, length, text) in long_rows() {
        let content = vec![in rt.alloc(); b' '; *length]?;
        let mut store = store_of(rt.alloc())?;
        store.add(*name, &content)?;
        answers(&rt, rt.alloc(), *words, &mut store, 3, *text)?;
    }
    Ok(())
}

/// The units, the content of the last, and what is told. Eight dumps of 8,388,608 bytes may be read, and one byte more may not.
static TOGETHER: [(&str, &str, &str); 3] = [
    (
        "b.json b.json b.json b.json b.json b.json b.json b.json",
        "",
        "refused b.json dump 1 not-json .\n",
    ),
    (
        "b.json b.json b.json b.json b.json b.json b.json b.json c.json",
        "",
        "refused b.json dump 1 not-json .\n",
    ),
    (
        "b.json b.json b.json b.json b.json b.json b.json b.json c.json",
        "{",
        "refused c.json store 2 total 67108864\n",
    ),
];

fn together_rows() -> &'static [(&'static str, &'static str, &'static str)] {
    &TOGETHER
}

#[test]
fn dumps_that_are_too_long_together(rt: HostRuntime) -> Result<(), Fail> {
    let mut store = store_of(rt.alloc())?;
    store.add("b.json", &vec![in rt.alloc(); b' '; 8_388_608]?)?;
    for (units, last, text) in together_rows() {
        let words = format!(in rt.alloc(); "check layout.json image.elf {units}")?;
        store.add("c.json", last.as_bytes())?;
        answers(&rt, rt.alloc(), &words, &mut store, 3, *text)?;
    }
    Ok(())
}

/// A unit of 8,277,609 bytes; its text of the newest version has 13 bytes more for each of its externals.
#[test]
fn an_upgraded_unit_that_is_too_long(rt: HostRuntime) -> Result<(), Fail> {
    let alloc = rt.alloc();
    let long = String::from_utf8(vec![in alloc; b'x'; 250]?)?;
    let mut unit = String::from_str(
        alloc,
        r#"{"valex":"unit","version":1,"unit":"a.c","functions":[],"variables":[],"externals":["#,
    )?;
    for i in 10_000..37_500 {
        let external = format!(in alloc;
            "{{\"name\":\"{i}{long}\",\"sig\":{{\"args\":[],\"result\":\"none\"}}}},"
        )?;
        unit.push_str(external.as_str())?;
    }
    unit.push_str(r#"{"name":"e","sig":null}]}"#)?;
    let mut store = store_of(alloc)?;
    store.add("a.json", unit.as_bytes())?;
    answers(
        &rt,
        alloc,
        "upgrade a.json",
        &mut store,
        3,
        "refused a.json store 1 too-long 8388608\n",
    )
}

/// The command, the read that fails, the put that fails, how many bytes a put takes, the status, and what was taken. 0 fails none.
type Failing = (&'static str, u32, u32, u32, u8, &'static str);

static FAILING: [Failing; 14] = [
    (CHECK, 1, 0, 64, 4, "read fault layout.json\n"),
    (CHECK, 2, 0, 64, 4, "read fault image.elf\n"),
    (CHECK, 3, 0, 64, 4, "read fault a.json\n"),
    (CHECK, 2, 1, 64, 5, ""),
    (CHECK, 0, 2, 4, 5, "yes\n"),
    (CHECK, 4, 200, 1, 0, REPORT),
    (RUN, 3, 0, 64, 4, "read fault replies.json\n"),
    (RUN, 4, 0, 64, 4, "read fault a.json\n"),
    (RUN, 0, 2, 9, 5, "assembly\n"),
    (
        "show image.elf 0x10010000 3",
        1,
        0,
        64,
        4,
        "read fault image.elf\n",
    ),
    ("show image.elf 0x10010000 3", 0, 2, 5, 5, "entry"),
    ("upgrade a.json", 1, 0, 64, 4, "read fault a.json\n"),
    ("upgrade a.json", 0, 1, 64, 5, ""),
    (
        "check",
        1,
        2,
        64,
        5,
        "usage: valex check LAYOUT IMAGE UNIT...\n       valex run LAYOUT ",
    ),
];

fn failing_rows() -> &'static [Failing] {
    &FAILING
}

/// Asserts what is taken of an answer where a read or a put fails.
fn fails(rt: &impl Abort, alloc: Global, row: &Failing) -> Result<(), Fail> {
    let (words, read, put, most, status, text) = row;
    if *most == 0 {
        return Err("puts of no byte".into());
    }
    let words = words_of(alloc, *words)?;
    let mut store = store_of(alloc)?;
    store.fail_call(*read)?;
    let mut out = MemSink::new(alloc, 4096, *most)?;
    out.fail_call(*put)?;
    let found = valex(alloc, &words, &mut store, &mut out);
    assert_eq!(rt; found, *status, "before {text}");
    assert_eq!(rt; out.taken(), text.as_bytes());
    Ok(())
}

#[test]
fn reads_and_puts_that_fail(rt: HostRuntime) -> Result<(), Fail> {
    for row in failing_rows() {
        fails(&rt, rt.alloc(), row)?;
    }
    Ok(())
}

/// Asserts that so many bytes of the report are taken before the put that fails.
fn fails_behind(rt: &impl Abort, alloc: Global, words: &[String], before: u32) -> Result<(), Fail> {
    let mut store = store_of(alloc)?;
    let mut out = MemSink::new(alloc, 256, 1)?;
    out.fail_call(before.wrapping_add(1))?;
    assert_eq!(rt; valex(alloc, words, &mut store, &mut out), 5);
    assert_eq!(rt; Some(out.taken()), REPORT.as_bytes().get(..before as usize));
    Ok(())
}

#[test]
fn each_put_that_fails(rt: HostRuntime) -> Result<(), Fail> {
    let words = words_of(rt.alloc(), CHECK)?;
    for (before, _) in REPORT.bytes().enumerate() {
        fails_behind(&rt, rt.alloc(), &words, before as u32)?;
    }
    Ok(())
}

/// With room for so many bytes, of which a put takes so many.
#[test]
fn puts_of_few_bytes(rt: HostRuntime) -> Result<(), Fail> {
    let alloc = rt.alloc();
    let words = words_of(alloc, CHECK)?;
    for (room, most, status) in [
        (4096, 1, 0),
        (4096, 7, 0),
        (138, 100, 0),
        (137, 100, 5),
        (1, 64, 5),
        (0, 1, 5),
    ] {
        let mut store = store_of(alloc)?;
        let mut out = MemSink::new(alloc, room, most)?;
        assert_eq!(rt; valex(alloc, &words, &mut store, &mut out), status);
        let length = REPORT.len().min(room as usize);
        assert_eq!(rt; Some(out.taken()), REPORT.as_bytes().get(..length));
    }
    Ok(())
}
