//! The laws, each the contract of a function.
ghost use Rattle.call_laws.specs.Laws.{CallsAgree, EndsAgree};

/// A call that is defined in the assembly is the same call of the image, with the same words and bytes, and leaves related states.
pub fn calls_agree()
    ensures { CallsAgree }
{}

/// The image ends where the assembly ends, with the same word.
pub fn ends_agree()
    ensures { EndsAgree }
{}
