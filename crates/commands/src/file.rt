//! The files that a command reads.

ghost use Rattle.std.specs.Prelude.{◌≡◌, ◌≤◌, ◌<◌, ◌+◌, ℕ, Some, SomeIff, length, slice_get};
ghost use Rattle.limits.specs.declared.TheConstants.{MOST_DUMPS_BYTES};
ghost use Rattle.commands.specs.declared.command.Command.TheVariants.{Run};
ghost use Rattle.commands.specs.Files.{dump_bytes, file, files, limit_of};

use crate::command::Command;
use limits::{
    MOST_DUMP_BYTES, MOST_DUMPS_BYTES, MOST_IMAGE_BYTES, MOST_LAYOUT_BYTES, MOST_REPLIES_BYTES,
};

#[derive(Clone, Copy, Debug, PartialEq, Eq, Drop)]
pub enum FileKind {
    Layout,
    Image,
    /// The replies of the external functions of a run.
    Replies,
    /// The dump of one unit.
    Dump,
}

impl FileKind {
    /// How many bytes a file may have.
    pub fn limit(self) -> u32
        ensures { result ≡ limit_of self }
    {
        match self {
            FileKind::Layout => MOST_LAYOUT_BYTES,
            FileKind::Image => MOST_IMAGE_BYTES,
            FileKind::Replies => MOST_REPLIES_BYTES,
            FileKind::Dump => MOST_DUMP_BYTES,
        }
    }
}

/// A file that a command reads, named by the word at a place, counted from the command's name, which is at 0.
#[derive(Clone, Copy, Debug, PartialEq, Eq, Drop)]
pub struct CommandFile {
    pub place: usize,
    pub kind: FileKind,
}

fn file(place: usize, kind: FileKind) -> CommandFile
    ensures { result ≡ file place kind }
{
    CommandFile { place, kind }
}

/// The file that a run with so many units reads after `i` others. The steps stand before the dumps.
#[tactic(auto, using(crate::proofs::FileLemmas::run_dump_after))]
fn run_file(units: u32, i: usize) -> CommandFile
    requires { i < units + 3 }
    ensures { (steps : ℕ) → slice_get (files (Run steps units)) i ≡ Some result }
{
    match i {
        0 => file(1, FileKind::Layout),
        1 => file(2, FileKind::Image),
        2 => file(3, FileKind::Replies),
        _ => file(i + 2, FileKind::Dump),
    }
}

impl Command {
    /// How many files the command reads.
    #[tactic(auto, using(crate::proofs::FileLemmas::check_count))]
    pub fn file_count(self) -> usize
        ensures { result ≡ length (files self) }
    {
        match self {
            Command::Check(units) => units as usize + 2,
            Command::Run(_, units) => units as usize + 3,
            Command::Show(_, _) | Command::Upgrade => 1,
        }
    }

    /// The file that the command reads after so many others.
    #[tactic(auto, using(crate::proofs::FileLemmas::check_count, crate::proofs::FileLemmas::dump_after))]
    pub fn file_at(self, i: usize) -> CommandFile
        requires { i < length (files self) }
        ensures { slice_get (files self) i ≡ Some result }
    {
        match self {
            Command::Check(_) => match i {
                0 => file(1, FileKind::Layout),
                1 => file(2, FileKind::Image),
                _ => file(i + 1, FileKind::Dump),
            },
            Command::Run(_, units) => run_file(units, i),
            Command::Show(_, _) => file(1, FileKind::Image),
            Command::Upgrade => file(1, FileKind::Dump),
        }
    }
}

/// The bytes of all dumps with one more file of so many bytes; None where they pass their limit.
pub fn dumps_with(sum: u32, kind: FileKind, bytes: usize) -> Option<u32>
    requires { sum ≤ MOST_DUMPS_BYTES }
    ensures { SomeIff result (sum + dump_bytes kind bytes ≤ MOST_DUMPS_BYTES) (sum + dump_bytes kind bytes) }
{
    match kind {
        FileKind::Dump if bytes <= (MOST_DUMPS_BYTES - sum) as usize => Some(sum + bytes as u32),
        FileKind::Dump => None,
        FileKind::Layout | FileKind::Image | FileKind::Replies => Some(sum),
    }
}
