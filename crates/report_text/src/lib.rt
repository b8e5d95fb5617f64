//! Verdicts on the words of a command, their statuses and their texts.
#![tactic(auto)]

mod owner;
mod path;
mod reason;
mod report;
pub mod verdict;
mod verdict_text;

pub use verdict_text::text;
