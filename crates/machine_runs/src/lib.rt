//! Runs of the two machines: the assembly machine over a linked program, and the flat machine over an image.
#![tactic(auto)]

pub mod asm_run;
mod calls;
mod events;
mod externals;
pub mod image_run;
pub mod trace;
mod words;
