//! The one text that each account management statement is written as.
//!
//! MySQL 8.0 Reference Manual, "Account Management Statements".
#![tactic(auto)]

mod accounts;
mod grants;
mod laws;
mod lists;
mod options;
mod privileges;
mod quotes;
mod settings;
mod statement;
mod target;
mod users;

pub use laws::{canonical_texts_are_tokens, written_strings_are_read};
pub use statement::text_of;
