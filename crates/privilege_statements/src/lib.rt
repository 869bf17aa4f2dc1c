//! The grammar of GRANT and REVOKE of privileges and of requests, and the code that reads them.
//!
//! MySQL 8.0 Reference Manual, "GRANT Statement" and "REVOKE Statement".
#![tactic(auto)]

mod items;
mod laws;
mod names;
mod rules;
mod statement;
mod targets;

pub use laws::{columns_are_few, names_are_items};
pub use rules::{PrivilegeStatement, RequestRule};
pub use statement::RawStatement;
