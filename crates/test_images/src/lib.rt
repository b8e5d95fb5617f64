//! Small executables and layouts for tests, made from their parts or from lines of text.
#![tactic(auto)]

pub mod image;
pub mod layouts;
pub mod lines;
