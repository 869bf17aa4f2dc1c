//! What REVOKE of privileges makes of the rows: which it takes, which restrictions it gives, and for which account it finds
//! nothing to take.
//!
//! MySQL 8.0 Reference Manual, "REVOKE Statement", "Privilege Restriction Using Partial Revokes".
#![tactic(auto)]

mod columns;
mod found;
mod given;
mod laws;
mod taken;

pub use found::first_without_grant;
pub use given::rows_given;
pub use laws::{given_rows_are_restrictions, revoke_all_gives_nothing, taken_rows_are_privileges};
pub use taken::{all_rows_taken, rows_taken};
