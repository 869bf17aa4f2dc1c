//! What a statement does to the rows, and why it may be refused.
//!
//! MySQL 8.0 Reference Manual, "Account Management Statements".
#![tactic(auto)]

mod accounts;
mod apply;
mod create;
mod drops;
mod grant;
mod limits;
mod lists;
mod rename;
mod revoke;

pub use apply::{Change, commit, prepare};
