//! Lists of 64-bit masks, merged and counted a vector of words at a time. Nothing here takes memory.
#![tactic(auto)]

mod count;
mod merge;

pub use count::count_with;
pub use merge::{and_into, or_into};

/// How many words a vector has.
const LANES: usize = 8;
