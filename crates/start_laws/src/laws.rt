//! The laws, each the contract of a function.
ghost use Rattle.start_laws.specs.Laws.{FirstStatesRelate, KnownIsFaithful, MatchesAreFaithful};

use link_laws::laws::{linked_gives_facts, matches_give_facts};

/// The first state of the assembly machine is related to that of the flat machine, whatever is left in its registers and on its stack.
pub fn first_states_relate()
    ensures { FirstStatesRelate }
{}

/// An image whose facts are known does what its assembly does: for every number of steps, all replies, and whatever is left over.
pub fn known_is_faithful()
    ensures { KnownIsFaithful }
{}

/// An image that matches does what its assembly does.
pub fn matches_are_faithful()
    ensures { MatchesAreFaithful }
{
    linked_gives_facts();
    matches_give_facts();
    known_is_faithful();
}
