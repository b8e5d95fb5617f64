//! What was decided on the words of a command, before it is written.

ghost use Rattle.std.specs.Prelude.{◌≡◌};
ghost use Rattle.report_text.specs.Verdicts.{status_of};

use asm_syntax::unit::ByteList;
use coverage::account::Account;
use judge_model::refusal::Refusal;
use link_model::fault::Fault;

/// The verdict on the words of a command. A file is named by its place among the words, from 0.
#[derive(Drop)]
pub enum Verdict {
    /// The words are no command.
    Usage,
    /// The file could not be read, or is not there.
    Unread(usize),
    /// The file has more bytes than so many.
    TooLong(usize, u32),
    /// With this file all dumps have more bytes than they may.
    PastTotal(usize),
    Refused(usize, Refusal),
    /// The image does not match; the first place that fails.
    No(Fault),
    /// The image matches.
    Yes(Account),
    /// What a command prints that judges nothing.
    Done(ByteList),
    /// What a run prints where the image does something else than its assembly.
    Differs(ByteList),
}

impl Verdict {
    /// The exit status.
    pub fn status(&self) -> u8
        ensures { result ≡ status_of self.now }
    {
        match self {
            Verdict::Yes(_) | Verdict::Done(_) => 0,
            Verdict::No(_) => 1,
            Verdict::Usage => 2,
            Verdict::TooLong(..) | Verdict::PastTotal(_) | Verdict::Refused(..) => 3,
            Verdict::Unread(_) => 4,
            Verdict::Differs(_) => 7,
        }
    }
}
