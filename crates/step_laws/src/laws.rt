//! The law, the contract of a function.
ghost use Rattle.step_laws.specs.Laws.{StepsAreFollowed};

/// The image follows each instruction of the assembly that makes or frees no frame.
pub fn steps_are_followed()
    ensures { StepsAreFollowed }
{}
