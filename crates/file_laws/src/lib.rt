//! Registers that agree: what each instruction of one word does to them in the assembly and in the image.
#![tactic(auto)]

pub mod laws;
