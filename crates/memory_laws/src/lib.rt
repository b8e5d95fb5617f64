//! Memories that agree: what loads, stores and frames do to the blocks of the assembly and to the bytes of the image.
#![tactic(auto)]

pub mod laws;
