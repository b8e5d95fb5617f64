//! Lines of printed text, as definitions.
#![tactic(auto)]
