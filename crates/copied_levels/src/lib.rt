//! What a session acts by: the rights and the verdict at its copied levels, which are those of the states that it read. The
//! definitions stand in the specifications; the code here is empty and carries their laws.
//!
//! MySQL 8.0 Reference Manual, "When Privilege Changes Take Effect".
#![tactic(auto)]

mod laws;

pub use laws::{checks_go_by_copies, copies_hold_what_was_read};
