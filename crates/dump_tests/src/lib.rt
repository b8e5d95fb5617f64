//! Tests of the readers and the writer of dumps, and of the table of mnemonics.
#![tactic(auto)]

#[cfg(test)]
mod reading;
#[cfg(test)]
mod rows;
#[cfg(test)]
mod spellings;
#[cfg(test)]
mod writing;
