//! What a run of sessions may answer: definitions of lines, of the events of a run and of legal reports. They stand in the
//! specifications; the code here is empty and carries their law.
//!
//! MySQL 8.0 Reference Manual, "When Privilege Changes Take Effect".
#![tactic(auto)]

mod laws;

pub use laws::{
    answers_go_onward, legal_sessions_go_onward, lines_call_once, runs_are_legal,
    sessions_know_fronts, wrong_reports_are_not_legal,
};
