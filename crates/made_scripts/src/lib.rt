//! Scripts that are made from a number, for large runs: the same numbers make the same script.
#![tactic(auto)]

mod deed;
mod draws;
mod script;

pub use deed::{Deed, MadeLine, Right};
pub use script::made_script;
