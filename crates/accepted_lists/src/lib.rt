//! What holds after every list of accepted statements, by the definitions alone: each law is the contract of a function that
//! does nothing.
//!
//! MySQL 8.0 Reference Manual, "Grant Tables".
#![tactic(auto)]

mod laws;

pub use laws::{
    accepted_statements_close_no_circle, accepted_statements_keep_accounts,
    accepted_statements_keep_rows_sound, accepted_statements_stay_within_limits,
};
