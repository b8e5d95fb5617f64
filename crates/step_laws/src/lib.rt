//! Steps inside the code of a function: the image follows each instruction that makes or frees no frame.
#![tactic(auto)]

pub mod laws;
