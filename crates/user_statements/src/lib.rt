//! The grammar of the statements that name no privileges, and the code that reads them.
//!
//! MySQL 8.0 Reference Manual, "Account Management Statements".
#![tactic(auto)]

mod flags;
mod laws;
mod options;
mod parts;
mod roles;
mod secret;
mod set;
mod setting;
mod statement;
mod users;

pub use laws::role_lists_are_spelled;
pub use secret::Password;
pub use setting::Setting;
pub use statement::UserStatement;
