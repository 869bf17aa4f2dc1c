//! Statements and requests, read from their texts.
//!
//! MySQL 8.0 Reference Manual, "Account Management Statements".
#![tactic(auto)]

mod cutting;
mod meaning;
mod parsing;
mod reading;
mod rules;

pub use cutting::{TextTokens, cut};
pub use meaning::{request_from, statement_from};
pub use parsing::{parse, parse_request};
pub use reading::{read_text, read_text_either};
pub use rules::{PrivilegeRule, UserRule};
