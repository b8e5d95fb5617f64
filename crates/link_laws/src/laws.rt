//! The laws, each the contract of a function.
ghost use Rattle.link_laws.specs.Laws.{
  BranchesLeadThere,
  LabelsStand,
  LinkedGivesFacts,
  LowestStrayIsFirst,
  MatchesGiveFacts,
  MatchesOrFails,
};
ghost use Rattle.link_laws.specs.Operands.{WantedWordsAreWords};
ghost use Rattle.link_laws.specs.Spans.{SpansCoverWhatIsLoaded};

/// An image matches exactly where no place fails. Where some place fails, one fault is the first.
pub fn matches_or_fails()
    ensures { MatchesOrFails }
{}

/// The pass over all addresses fails exactly where a loaded address is stray, and first at the lowest.
#[tactic(auto, using(crate::proofs::Proofs::lowest_stray_is_first))]
pub fn lowest_stray_is_first()
    ensures { LowestStrayIsFirst }
{}

/// Of linked units the entry is a function, each name that is used means a key, and each function has a shape.
pub fn linked_gives_facts()
    ensures { LinkedGivesFacts }
{}

/// An image that matches has its code, its tables and its data apart, loaded and as they are spelt.
#[tactic(auto, using(crate::proofs::Proofs::matches_give_facts))]
pub fn matches_give_facts()
    ensures { MatchesGiveFacts }
{}

/// Labels that instructions name stand in the code, and branches that are spelt lead to their targets.
#[tactic(auto, using(crate::proofs::Proofs::branches_lead_there))]
pub fn branches_lead_to_labels()
    ensures labels { LabelsStand }
    ensures branches { BranchesLeadThere }
{}

/// Where operands are in their ranges, the word that a fault wants is that of an instruction.
#[tactic(auto, using(crate::proofs::Proofs::wanted_words_are_words))]
pub fn wanted_words_are_words()
    ensures { WantedWordsAreWords }
{}

/// Each loaded address is in exactly one span of an account, and what is in a span is loaded.
#[tactic(auto, using(crate::proofs::Proofs::spans_cover_what_is_loaded))]
pub fn spans_cover_what_is_loaded()
    ensures { SpansCoverWhatIsLoaded }
{}
