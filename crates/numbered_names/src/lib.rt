//! Names that have numbers which stay with them.
#![tactic(auto)]

mod numbered_names;
mod set;
mod tables;

pub use numbered_names::NumberedNames;
