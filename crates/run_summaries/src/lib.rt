//! What a run answered, in numbers.
#![tactic(auto)]

mod count;
mod summary;

pub use summary::summary_text;
