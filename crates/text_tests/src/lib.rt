//! Tests of the program's words, its texts and its stores.
#![tactic(auto)]

#[cfg(test)]
mod command_words;
#[cfg(test)]
mod stores;
#[cfg(test)]
mod verdicts;
#[cfg(test)]
mod words;
