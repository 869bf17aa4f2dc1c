//! The texts of the lines that SHOW GRANTS prints: each is read as the statement that it is printed from, so that they may be
//! pasted into a script.
//!
//! MySQL 8.0 Reference Manual, "SHOW GRANTS Statement".
#![tactic(auto)]

mod laws;
mod reading;

pub use laws::{shown_texts_are_read_back, shown_texts_of_a_history_are_read_back};
pub use reading::read_line;
