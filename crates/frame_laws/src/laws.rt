//! The law, the contract of a function.
ghost use Rattle.frame_laws.specs.Laws.{FramesAreFollowed};

/// The image follows each instruction that makes or frees a frame, where the frame fits the stack.
pub fn frames_are_followed()
    ensures { FramesAreFollowed }
{}
