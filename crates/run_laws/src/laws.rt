//! The laws, each the contract of a function.
ghost use Rattle.run_laws.specs.Laws.{EachStepLeads, RunsFollow};

/// From related states the image follows the next step of the assembly, whatever it is.
pub fn each_step_leads()
    ensures { EachStepLeads }
{}

/// From related states n steps of the assembly are followed by at most 5 n of the image: the same events, and the same end.
pub fn runs_follow()
    ensures { RunsFollow }
{}
