//! Units linked into a program: its keys, their kinds and alignments, and what names mean.
#![tactic(auto)]

pub mod alignments;
pub mod keyed;
pub mod kinds;
pub mod program;
pub mod tables;
