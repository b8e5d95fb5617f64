//! The top call.

ghost use Rattle.std.specs.Prelude.{◌≡◌, IfOk, map, string_bytes};
ghost use Rattle.report_cmd.specs.Ends.{Ends, IsAnswer, Outside};
ghost use Rattle.report_cmd.specs.Answers.{Answers};

use command_verdicts::decide;
use link_laws::laws::{matches_or_fails, spans_cover_what_is_loaded};
use outside::sink::{Sink, put_all};
use outside::store::Store;
use report_text::text;
use std::alloc::{AllocError, Global};

/// The status of a write that failed.
const UNWRITTEN: u8 = 5;

/// The status of want of memory.
const OUT_OF_MEMORY: u8 = 6;

/// The status of a verdict and its whole text.
#[derive(Drop)]
pub struct Answer {
    pub status: u8,
    pub text: Vec<u8>,
}

/// The answer to the words of a command. It fails for want of memory alone.
fn answer_of<S: Store>(alloc: Global, words: &[String], store: &mut S) -> Result<Answer, AllocError>
    ensures kept { S.holds store.new ≡ S.holds store.old }
    ensures answer { IfOk result (IsAnswer
        (record {
          holds = S.holds store.old;
          faults = S.faults store.old;
          faults_after = S.faults store.new;
          blamed = S.blamed store.new;
        })
        (map string_bytes words.now)) }
{
    let verdict = decide(alloc, words, store)?;
    let status = verdict.status();
    let text = text(alloc, words, verdict)?;
    Ok(Answer { status, text })
}

/// The status, after the whole text was made and then written.
fn write_answer<S: Store, W: Sink>(
    alloc: Global,
    words: &[String],
    store: &mut S,
    out: &mut W,
) -> u8
    ensures kept { S.holds store.new ≡ S.holds store.old }
    ensures ends { Ends
        (record {
          store = record {
            holds = S.holds store.old;
            faults = S.faults store.old;
            faults_after = S.faults store.new;
            blamed = S.blamed store.new;
          };
          taken = W.taken out.old;
          taken_after = W.taken out.new;
          sink_faults = W.faults out.old;
          sink_faults_after = W.faults out.new;
        })
        (map string_bytes words.now) result }
{
    let Ok(answer) = answer_of(alloc, words, store) else {
        return OUT_OF_MEMORY;
    };
    match put_all(out, &answer.text) {
        Ok(()) => answer.status,
        Err(_) => UNWRITTEN,
    }
}

/// All that the program does: reads the files that the words name, decides, and writes the whole text. It answers the
/// exit status.
pub fn valex<S: Store, W: Sink>(alloc: Global, words: &[String], store: &mut S, out: &mut W) -> u8
    ensures kept { S.holds store.new ≡ S.holds store.old }
    ensures answers { Answers
        (record {
          store = record {
            holds = S.holds store.old;
            faults = S.faults store.old;
            faults_after = S.faults store.new;
            blamed = S.blamed store.new;
          };
          taken = W.taken out.old;
          taken_after = W.taken out.new;
          sink_faults = W.faults out.old;
          sink_faults_after = W.faults out.new;
        })
        (map string_bytes words.now) result }
{
    matches_or_fails();
    spans_cover_what_is_loaded();
    write_answer(alloc, words, store, out)
}
