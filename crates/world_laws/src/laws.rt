//! The law, the contract of a function.
ghost use Rattle.world_laws.specs.Laws.{WorldsFit};

/// What is known of an image that matches is all that the steps of the two machines need of it.
pub fn worlds_fit()
    ensures { WorldsFit }
{}
