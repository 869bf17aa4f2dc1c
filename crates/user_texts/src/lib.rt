//! Canonical texts of account management statements that name no privileges are read back: laws of the definitions, each the
//! contract of a function that does nothing.
//!
//! MySQL 8.0 Reference Manual, "Account Management Statements".
#![tactic(auto)]

mod laws;

pub use laws::{
    canonical_user_texts_are_read, completed_passwords_are_read, spelled_accounts_keep_rules,
};
