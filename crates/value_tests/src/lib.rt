//! Tests of the values of the assembly machine, its blocks, and the meaning of operations on words.
#![tactic(auto)]

#[cfg(test)]
mod blocks;
#[cfg(test)]
mod operations;
#[cfg(test)]
mod values;
