//! Whole functions against an image: the words of each instruction, whatever its spelling, and the tables of jumps.
#![tactic(auto)]

mod addresses;
mod area;
pub mod function;
mod image_words;
mod instr;
pub mod matching;
mod names;
mod place;
mod spelling;
pub mod table;
