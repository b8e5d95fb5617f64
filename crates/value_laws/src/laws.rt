//! The laws, each the contract of a function.
ghost use Rattle.value_laws.specs.Laws.{HomesAgree, OperationsAgree};

/// Each operation on values that stand for words gives values that stand for the words of the instruction set.
pub fn operations_agree()
    ensures { OperationsAgree }
{}

/// The address of a live block is that of its variable, or that of its frame below the frames that are older.
pub fn homes_agree()
    ensures { HomesAgree }
{}
