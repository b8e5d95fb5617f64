//! What follows from the definition of a match: an image fails to match exactly where a place fails, and what one that matches has
//! at each address.
#![tactic(auto)]

pub mod laws;
