//! What is shown of an image: its entry, its segments, how many symbols it has, and words with their instructions.
#![tactic(auto)]

mod flags;
mod show;

pub use show::show_text;
