//! The laws, each the contract of a function.
ghost use Rattle.trace_laws.specs.Laws.{MatchingTracesAgree};

use link_laws::laws::{linked_gives_facts, matches_give_facts};
use start_laws::laws::{first_states_relate, matches_are_faithful};
use verdict_laws::laws::longer_runs_extend;

/// Where an image matches, the traces of the program and of the image agree, whatever the registers and the stack hold at first.
pub fn matching_traces_agree()
    ensures { MatchingTracesAgree }
{
    linked_gives_facts();
    matches_give_facts();
    matches_are_faithful();
    first_states_relate();
    longer_runs_extend();
}
