//! Calls of external functions, with the buffers that they read and fill, and the end of a run.
#![tactic(auto)]

pub mod laws;
