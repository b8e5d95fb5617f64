// Arithmetic of words and their digits, ranges of addresses, and counts of steps.
#![tactic(auto)]

pub mod hexadecimal;
pub mod range;
pub mod steps;
#[cfg(test)]
mod tests;
pub mod words;
