//! Accounts that come and accounts that are renamed, tried and then carried out.
#![tactic(auto)]

mod create;
mod rename;
mod standing;

pub use create::{add_accounts, try_accounts};
pub use rename::{last_first, may_rename, rename_all};
