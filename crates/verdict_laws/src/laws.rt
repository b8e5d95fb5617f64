//! The laws, each the contract of a function.
ghost use Rattle.verdict_laws.specs.Laws.{LongerRunsExtend, MatchingRunsAgree};

use start_laws::laws::matches_are_faithful;

/// A run of more steps has the events of a shorter one first, and is the same where that one is over.
pub fn longer_runs_extend()
    ensures { LongerRunsExtend }
{}

/// Where an image matches, five times as many steps of it as of the assembly agree with the assembly: the same events and the same end,
/// or at least the events so far.
pub fn matching_runs_agree()
    ensures { MatchingRunsAgree }
{
    matches_are_faithful();
}
