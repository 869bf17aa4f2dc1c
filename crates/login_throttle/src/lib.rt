//! Who may try a password: digests of passwords, and the accounts that too many wrong ones in a row have blocked.
//!
//! MySQL 8.0 Reference Manual, "CREATE USER Statement" (FAILED_LOGIN_ATTEMPTS and PASSWORD_LOCK_TIME).
#![tactic(auto)]

mod laws;
mod password;
mod stamp;
mod tracking;

pub use laws::{empty_password_is_known, fresh_stamps_show_the_count, stamps_count_failures};
pub use password::verifier;
pub use stamp::{Stamp, reset};
pub use tracking::{Tried, attempt};
