//! What is published: the accepted statements, the oldest first, and the map of privileges after them.
//!
//! MySQL 8.0 Reference Manual, "When Privilege Changes Take Effect".
#![tactic(auto)]

mod login;
mod published;

pub use login::Login;
pub use published::{Next, Published};
