//! What a verdict prints.

ghost use Rattle.std.specs.Prelude.{◌≡◌, IfOk, map, string_bytes};
ghost use Rattle.report_text.specs.Reasons.{refused_line, store_reason};
ghost use Rattle.report_text.specs.Verdicts.{text_of};

use crate::reason::{Reason, refusal_line, refused_line};
use crate::report::{fault_text, report_text};
use crate::verdict::Verdict;
use commands::words::word;
use limits::MOST_DUMPS_BYTES;
use std::alloc::{AllocError, Global};

/// The commands, those that are not there yet too.
const USAGE: &str = "usage: valex check LAYOUT IMAGE UNIT...\n\
\x20      valex run LAYOUT IMAGE REPLIES STEPS UNIT...\n\
\x20      valex show IMAGE ADDRESS COUNT\n\
\x20      valex make SEED COUNT\n\
\x20      valex upgrade UNIT\n";

/// The line on a file that is too long by itself, or with the dumps before it.
fn store_line(
    alloc: Global,
    file: &str,
    number: u32,
    word: &str,
    limit: u32,
) -> Result<String, AllocError>
    ensures { IfOk result (λ t. string_bytes t ≡ refused_line file.now (store_reason number word.now limit)) }
{
    let place = format!(in alloc; "{limit}")?;
    let reason = Reason {
        part: "store",
        number,
        word,
        place: place.as_str(),
        extra: None,
    };
    refused_line(alloc, file, &reason)
}

/// All that a verdict prints. The words are those of the command.
pub fn text(alloc: Global, words: &[String], verdict: Verdict) -> Result<Vec<u8>, AllocError>
    ensures { IfOk result (λ t. t.items ≡ text_of (map string_bytes words.now) verdict) }
{
    let text = match verdict {
        Verdict::Usage => String::from_str(alloc, USAGE),
        Verdict::Unread(place) => {
            let file = word(words, place);
            format!(in alloc; "read fault {file}\n")
        }
        Verdict::TooLong(place, limit) => {
            store_line(alloc, word(words, place), 1, "too-long", limit)
        }
        Verdict::PastTotal(place) => {
            store_line(alloc, word(words, place), 2, "total", MOST_DUMPS_BYTES)
        }
        Verdict::Refused(place, refusal) => refusal_line(alloc, word(words, place), &refusal),
        Verdict::No(fault) => fault_text(alloc, &fault),
        Verdict::Yes(account) => report_text(alloc, &account),
        Verdict::Done(text) | Verdict::Differs(text) => return Ok(text.into_vec()),
    }?;
    Ok(text.into_bytes())
}
