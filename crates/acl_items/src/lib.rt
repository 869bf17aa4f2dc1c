//! Lists of owned values that contracts see as their items, and copies that equal their source.
#![tactic(auto)]

mod copied;
mod items;

pub use copied::Copied;
pub use items::Items;
