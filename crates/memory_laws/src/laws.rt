//! The laws, each the contract of a function.
ghost use Rattle.memory_laws.specs.Laws.{BlocksAreFreed, BlocksAreMade, LoadsAgree, StoresAgree};

/// A store that is defined in the assembly is one of the image that does not fault, and the memories agree after it.
pub fn stores_agree()
    ensures { StoresAgree }
{}

/// A load that is defined in the assembly is one of the image, and its value stands for the word.
pub fn loads_agree()
    ensures { LoadsAgree }
{}

/// Memories that agree do so after a block is made on the stack, and after it is freed.
pub fn frames_agree()
    ensures made { BlocksAreMade }
    ensures freed { BlocksAreFreed }
{}
