//! The files of a command, each within its limit.

ghost use Rattle.std.specs.Prelude.{◌≡◌, IfErr, IfOk, length, map, string_bytes};
ghost use Rattle.commands.specs.Files.{files};
ghost use Rattle.commands.specs.Reads.{AreRead, IsRead};
ghost use Rattle.command_verdicts.specs.Stops.{IsNotRead, Stopped, StopsBy};
ghost use Rattle.simulation.specs.Judged as judged;

use crate::stop::Stop;
use commands::command::Command;
use commands::file::{CommandFile, dumps_with};
use commands::words::word;
use outside::store::{Store, StoreError};
use report_text::verdict::Verdict;
use std::alloc::Global;

fn read_file<S: Store>(
    alloc: Global,
    words: &[String],
    file: CommandFile,
    store: &mut S,
) -> Result<Vec<u8>, Stop>
    ensures kept { S.holds store.new ≡ S.holds store.old }
    ensures read { IfOk result (λ bytes. IsRead (S.holds store.old) (map string_bytes words.now) file bytes.items) }
    ensures quiet { IfOk result (λ bytes. S.faults store.new ≡ S.faults store.old) }
    ensures stopped { IfErr result (StopsBy (IsNotRead
        (record {
          holds = S.holds store.old;
          faults = S.faults store.old;
          faults_after = S.faults store.new;
          blamed = S.blamed store.new;
        })
        (map string_bytes words.now) file)) }
{
    match store.read_file(alloc, word(words, file.place), file.kind.limit()) {
        Ok(bytes) => Ok(bytes),
        Err(StoreError::Failed | StoreError::Absent) => {
            Err(Stop::Decided(Verdict::Unread(file.place)))
        }
        Err(StoreError::TooLong) => Err(Stop::Decided(Verdict::TooLong(
            file.place,
            file.kind.limit(),
        ))),
        Err(StoreError::Memory) => Err(Stop::Memory),
    }
}

/// The contents of the command's files in their order, the sum of dumps tested after each.
pub fn read_files<S: Store>(
    alloc: Global,
    words: &[String],
    command: Command,
    store: &mut S,
) -> Result<Vec<Vec<u8>>, Stop>
    ensures kept { S.holds store.new ≡ S.holds store.old }
    ensures read { IfOk result
        (λ contents. AreRead (S.holds store.old) (map string_bytes words.now) (files command) (judged.contents contents.items)) }
    ensures stopped { IfErr result (StopsBy (Stopped
        (record {
          holds = S.holds store.old;
          faults = S.faults store.old;
          faults_after = S.faults store.new;
          blamed = S.blamed store.new;
        })
        (map string_bytes words.now) (files command))) }
{
    let mut contents = Vec::new(alloc);
    let mut sum = 0;
    for i in 0..command.file_count() {
        let file = command.file_at(i);
        let bytes = match read_file(alloc, words, file, store) {
            Ok(bytes) => bytes,
            Err(stop) => return Err(stop),
        };
        sum = match dumps_with(sum, file.kind, bytes.as_slice().len()) {
            Some(total) => total,
            None => return Err(Stop::Decided(Verdict::PastTotal(file.place))),
        };
        contents.push(bytes)?;
    }
    Ok(contents)
}
