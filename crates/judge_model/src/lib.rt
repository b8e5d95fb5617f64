//! What a layout, an image and units say together, as definitions: the program that they make, or the first thing that is refused.
#![tactic(auto)]

pub mod refusal;
