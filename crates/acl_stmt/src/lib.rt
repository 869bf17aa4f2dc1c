//! Account management statements and their parts, each kept within the rules of its kind.
//!
//! MySQL 8.0 Reference Manual, "Account Management Statements".
#![tactic(auto)]

mod columns;
mod entry;
mod limit;
mod options;
mod privileges;
mod refusal;
mod request;
mod roles;
mod statement;
mod target;

pub use columns::ColumnPriv;
pub use entry::Entry;
pub use limit::Limit;
pub use options::AccountOptions;
pub use privileges::PrivList;
pub use refusal::{Full, Missing, Refusal, Why};
pub use request::Request;
pub use roles::{DefaultForm, RoleForm};
pub use statement::Statement;
pub use target::Target;
