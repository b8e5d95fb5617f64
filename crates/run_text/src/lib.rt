//! Two traces beside each other: whether they agree, and their text.
#![tactic(auto)]

mod agreement;
mod event;
mod outcome;
mod run;

pub use agreement::{common_events, is_same};
pub use run::run_text;
