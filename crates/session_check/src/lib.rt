//! A session: what it has read, and the check of its requests.
//!
//! MySQL 8.0 Reference Manual, "When Privilege Changes Take Effect".
#![tactic(auto)]

mod laws;
mod session;

pub use laws::later_statements_keep_what_was_read;
pub use session::SessionState;
