//! What SHOW GRANTS prints of an account, carried out again, gives the account the same rights: laws, each the contract of a
//! function that does nothing.
//!
//! MySQL 8.0 Reference Manual, "SHOW GRANTS Statement".
#![tactic(auto)]

mod laws;

pub use laws::{shown_lines_are_read_back, shown_lines_of_a_history_are_read_back};
