//! Values stand for words: operations on values agree with those on words, and blocks stand where the assembly machine tells.
#![tactic(auto)]

pub mod laws;
