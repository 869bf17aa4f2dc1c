//! The canonical texts of GRANT and REVOKE of privileges are read back: laws, each the contract of a function that does nothing.
//!
//! MySQL 8.0 Reference Manual, "GRANT Statement" and "REVOKE Statement".
#![tactic(auto)]

mod laws;

pub use laws::{canonical_texts_are_read_back, spelled_names_keep_rules, tokens_stand_for_text};
