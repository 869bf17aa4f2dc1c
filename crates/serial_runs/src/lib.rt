//! Runs of lines one after the other, as a case of runs of sessions at once. The definitions stand in the specifications; the
//! code here is empty and carries their laws.
//!
//! MySQL 8.0 Reference Manual, "When Privilege Changes Take Effect".
#![tactic(auto)]

mod laws;

pub use laws::{nothing_is_read_back, serial_runs_are_whole};
