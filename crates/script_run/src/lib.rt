//! Runs the lines of a script one after the other: each is answered by what the lines before it left.
//!
//! MySQL 8.0 Reference Manual, "When Privilege Changes Take Effect".
#![tactic(auto)]

mod denial;
mod forms;
mod issue;
mod login;
mod run;
mod seat;

pub use forms::BuiltForms;
pub use run::{Run, run_lines};
