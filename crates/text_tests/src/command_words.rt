//! Words that are commands, and words that are none; what the commands read.

use commands::command::{Command, command_of};
use commands::file::{CommandFile, FileKind, dumps_with};
use commands::words::word;
use std::alloc::{AllocError, Global};

fn words_of(alloc: Global, words: &[&str]) -> Result<Vec<String>, AllocError> {
    let mut list = Vec::new(alloc);
    for word in words {
        list.push(word.to_string(alloc)?)?;
    }
    Ok(list)
}

/// Words, and the command that they are.
static COMMANDS: [(&[&str], Option<Command>); 58] = [
    (&[], None),
    (&[""], None),
    (&["check"], None),
    (&["check", "l"], None),
    (&["check", "l", "i"], None),
    (&["check", "l", "i", "u"], Some(Command::Check(1))),
    (&["check", "l", "i", "u", "v", "w"], Some(Command::Check(3))),
    (&["check", "f", "f", "f", "f"], Some(Command::Check(2))),
    (&["check", "a-b", "ü", "c -d"], Some(Command::Check(1))),
    (&["check", "show", "run", "check"], Some(Command::Check(1))),
    (&["check", "l", "i", "-c"], None),
    (&["check", "-", "i", "u"], None),
    (&["check", "l", "--", "u"], None),
    (&["check", "l", "i", "u", ""], None),
    (&["check", "", "i", "u"], None),
    (&["Check", "l", "i", "u"], None),
    (&["checks", "l", "i", "u"], None),
    (&["-check", "l", "i", "u"], None),
    (&["l", "check", "i", "u"], None),
    (&["show"], None),
    (&["show", "i", "0x0"], None),
    (&["show", "i", "0x0", "0"], Some(Command::Show(0, 0))),
    (
        &["show", "i", "0x10010000", "3"],
        Some(Command::Show(0x1001_0000, 3)),
    ),
    (
        &["show", "i", "0xfffffffc", "65536"],
        Some(Command::Show(0xffff_fffc, 65_536)),
    ),
    (
        &["show", "i", "0xABcdEF0c", "0000065536"],
        Some(Command::Show(0xabcd_ef0c, 65_536)),
    ),
    (
        &["show", "i", "0x0000000c", "9"],
        Some(Command::Show(12, 9)),
    ),
    (&["show", "i", "0x10010000", "3", "u"], None),
    (&["show", "i", "0x10010000", "65537"], None),
    (&["show", "i", "0x10010000", "4294967299"], None),
    (&["show", "i", "0x10010000", "00000000003"], None),
    (&["show", "i", "0x10010000", "0x3"], None),
    (&["show", "i", "0x10010000", "3a"], None),
    (&["show", "i", "0x10010000", "+3"], None),
    (&["show", "i", "0x10010002", "3"], None),
    (&["show", "i", "0x110010000", "3"], None),
    (&["show", "i", "0x1001000g", "3"], None),
    (&["show", "i", "0X10010000", "3"], None),
    (&["show", "i", "10010000", "3"], None),
    (&["show", "i", "0x", "3"], None),
    (&["show", "i", "3", "0x10010000"], None),
    (&["show", "-i", "0x10010000", "3"], None),
    (&["upgrade"], None),
    (&["upgrade", "u"], Some(Command::Upgrade)),
    (&["upgrade", "u", "v"], None),
    (&["upgrade", "-u"], None),
    (&["run"], None),
    (&["run", "l", "i", "r", "10"], None),
    (
        &["run", "l", "i", "r", "10", "u"],
        Some(Command::Run(10, 1)),
    ),
    (
        &["run", "l", "i", "r", "1000000", "u", "v"],
        Some(Command::Run(1_000_000, 2)),
    ),
    (&["run", "l", "i", "r", "0", "u"], Some(Command::Run(0, 1))),
    (
        &["run", "l", "i", "r", "007", "u"],
        Some(Command::Run(7, 1)),
    ),
    (&["run", "l", "i", "r", "1000001", "u"], None),
    (&["run", "l", "i", "r", "00000000007", "u"], None),
    (&["run", "l", "i", "r", "u", "10"], None),
    (&["run", "l", "i", "r", "-1", "u"], None),
    (&["run", "l", "i", "-r", "10", "u"], None),
    (&["run", "l", "i", "r", "10", ""], None),
    (&["make", "1", "64"], None),
];

/// The rows, which proofs need not see.
fn command_rows() -> &'static [(&'static [&'static str], Option<Command>)] {
    &COMMANDS
}

#[test]
fn words_are_commands(rt: HostRuntime) -> Result<(), AllocError> {
    for (words, command) in command_rows() {
        let words = words_of(rt.alloc(), words)?;
        assert_eq!(rt; command_of(&words), *command, "of {words:?}");
    }
    Ok(())
}

#[test]
fn units_are_counted(rt: HostRuntime) -> Result<(), AllocError> {
    let table = [(511, true), (512, true), (513, false), (600, false)];
    for (count, is_command) in table {
        let mut words = words_of(rt.alloc(), &["check", "l", "i"])?;
        for _ in 0..count {
            words.push("u".to_string(rt.alloc())?)?;
        }
        let wanted = if is_command {
            Some(Command::Check(count))
        } else {
            None
        };
        assert_eq!(rt; command_of(&words), wanted, "of {count} units");
    }
    Ok(())
}

const LAYOUT: FileKind = FileKind::Layout;

const IMAGE: FileKind = FileKind::Image;

const REPLIES: FileKind = FileKind::Replies;

const DUMP: FileKind = FileKind::Dump;

/// The place among the words and the kind of each file that a command reads.
static FILES: [(Command, &[(usize, FileKind)]); 6] = [
    (Command::Check(1), &[(1, LAYOUT), (2, IMAGE), (3, DUMP)]),
    (
        Command::Check(3),
        &[(1, LAYOUT), (2, IMAGE), (3, DUMP), (4, DUMP), (5, DUMP)],
    ),
    (
        Command::Run(10, 1),
        &[(1, LAYOUT), (2, IMAGE), (3, REPLIES), (5, DUMP)],
    ),
    (
        Command::Run(0, 2),
        &[(1, LAYOUT), (2, IMAGE), (3, REPLIES), (5, DUMP), (6, DUMP)],
    ),
    (Command::Show(0x1001_0000, 3), &[(1, IMAGE)]),
    (Command::Upgrade, &[(1, DUMP)]),
];

fn file_rows() -> &'static [(Command, &'static [(usize, FileKind)])] {
    &FILES
}

#[test]
fn commands_read_files(rt: HostRuntime) {
    for (command, files) in file_rows() {
        assert_eq!(rt; command.file_count(), files.len());
        for (i, (place, kind)) in files.iter().enumerate() {
            let wanted = CommandFile {
                place: *place,
                kind: *kind,
            };
            assert_eq!(rt; command.file_at(i), wanted);
        }
    }
}

#[test]
fn a_place_past_the_words_has_no_word(rt: HostRuntime) -> Result<(), AllocError> {
    let words = words_of(rt.alloc(), &["check", "l", "i", "u"])?;
    for (place, text) in [(0, "check"), (1, "l"), (3, "u"), (4, ""), (9, "")] {
        assert_eq!(rt; word(&words, place), text);
    }
    Ok(())
}

#[test]
fn files_have_limits(rt: HostRuntime) {
    for (kind, limit) in [
        (FileKind::Layout, 8_388_608),
        (FileKind::Image, 33_554_432),
        (FileKind::Dump, 8_388_608),
    ] {
        assert_eq!(rt; kind.limit(), limit);
    }
    let table = [
        (0, FileKind::Dump, 0, Some(0)),
        (5, FileKind::Dump, 7, Some(12)),
        (67_108_863, FileKind::Dump, 1, Some(67_108_864)),
        (67_108_864, FileKind::Dump, 0, Some(67_108_864)),
        (67_108_864, FileKind::Dump, 1, None),
        (58_720_257, FileKind::Dump, 8_388_608, None),
        (67_108_864, FileKind::Image, 33_554_432, Some(67_108_864)),
        (67_108_864, FileKind::Layout, 8_388_608, Some(67_108_864)),
    ];
    for (sum, kind, bytes, wanted) in table {
        assert_eq!(rt;
            dumps_with(sum, kind, bytes),
            wanted,
            "of {sum} and {bytes} bytes"
        );
    }
}
