//! The law, the contract of a function.
ghost use Rattle.file_laws.specs.Laws.{ActionsAgree};

/// Each instruction of one word that is no jump does alike in the assembly and, by its word, in the image.
pub fn actions_agree()
    ensures { ActionsAgree }
{}
