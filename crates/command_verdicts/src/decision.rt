//! The verdict on the words of a command.

ghost use Rattle.std.specs.Prelude.{◌≡◌, IfOk, length, map, string_bytes};
ghost use Rattle.commands.specs.Files.{files};
ghost use Rattle.simulation.specs.Judged as judged;
ghost use Rattle.command_verdicts.specs.Conclusions.{Concludes};
ghost use Rattle.command_verdicts.specs.Limits.{HasFew};
ghost use Rattle.command_verdicts.specs.Decided.{Decided, DecidedOn};

use crate::conclude::{checked, shown, upgraded};
use crate::read::read_files;
use crate::stop::Stop;
use commands::command::{Command, command_of};
use outside::store::Store;
use report_text::verdict::Verdict;
use run_verdicts::ran;
use std::alloc::{AllocError, Global};

/// The verdict on the contents of the command's files, in their order.
fn concluded(alloc: Global, command: Command, contents: &[Vec<u8>]) -> Result<Verdict, AllocError>
    requires all { length contents.now ≡ length (files command) }
    requires few { HasFew command (length contents.now) }
    ensures { IfOk result (Concludes command (judged.contents contents.now)) }
{
    match command {
        Command::Check(_) => {
            let [layout, image, units @ ..] = contents else {
                unreachable!();
            };
            checked(alloc, layout, image, units)
        }
        Command::Run(steps, _) => {
            let [layout, image, replies, units @ ..] = contents else {
                unreachable!();
            };
            ran(alloc, layout, image, replies, steps, units)
        }
        Command::Show(address, count) => {
            let [image] = contents else {
                unreachable!();
            };
            shown(alloc, image, address, count)
        }
        Command::Upgrade => {
            let [dump] = contents else {
                unreachable!();
            };
            upgraded(alloc, dump)
        }
    }
}

/// The verdict on a command, by the files that its words name.
fn decide_on<S: Store>(
    alloc: Global,
    words: &[String],
    command: Command,
    store: &mut S,
) -> Result<Verdict, AllocError>
    requires { HasFew command (length (files command)) }
    ensures kept { S.holds store.new ≡ S.holds store.old }
    ensures decided { IfOk result (DecidedOn
        (record {
          holds = S.holds store.old;
          faults = S.faults store.old;
          faults_after = S.faults store.new;
          blamed = S.blamed store.new;
        })
        (map string_bytes words.now) command) }
{
    match read_files(alloc, words, command, store) {
        Ok(contents) => concluded(alloc, command, contents.as_slice()),
        Err(Stop::Decided(verdict)) => Ok(verdict),
        Err(Stop::Memory) => Err(AllocError),
    }
}

/// The verdict on the words of a command, by what the store holds under them. It fails for want of memory alone.
pub fn decide<S: Store>(
    alloc: Global,
    words: &[String],
    store: &mut S,
) -> Result<Verdict, AllocError>
    ensures kept { S.holds store.new ≡ S.holds store.old }
    ensures decided { IfOk result (Decided
        (record {
          holds = S.holds store.old;
          faults = S.faults store.old;
          faults_after = S.faults store.new;
          blamed = S.blamed store.new;
        })
        (map string_bytes words.now)) }
{
    match command_of(words) {
        Some(command) => decide_on(alloc, words, command, store),
        None => Ok(Verdict::Usage),
    }
}
