//! Runs of the two machines over a linked program and an image, as definitions.
#![tactic(auto)]
