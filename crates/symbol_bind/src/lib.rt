//! The addresses of a program's keys, by the layout's pins, the symbols of an image, and what the image has at their uses.
#![tactic(auto)]

pub mod address_set;
pub mod bind;
pub mod candidates;
mod known;
mod left;
pub mod narrow;
pub mod offers;
pub mod uses;
