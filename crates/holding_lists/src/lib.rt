//! What accounts hold, in lists.
#![tactic(auto)]

mod defaults;
mod globals;
mod lists;
mod objects;
mod roles;
mod schemas;

pub use lists::{holdings_naming, holdings_of};
