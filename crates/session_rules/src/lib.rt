//! What a run of a script may answer: what its log stands on, and how its answers are told. The rules themselves are those of
//! runs of sessions. They stand in the specifications; the code here is empty and carries their law.
//!
//! MySQL 8.0 Reference Manual, "When Privilege Changes Take Effect".
#![tactic(auto)]

mod laws;

pub use laws::script_runs_are_legal;
