//! The rows that a GRANT of privileges gives, and those that it takes: what the definitions of the model say of them, as lists.
//!
//! MySQL 8.0 Reference Manual, "GRANT Statement", "Privilege Restriction Using Partial Revokes".
#![tactic(auto)]

mod columns;
mod given;
mod granted;
mod held;
mod laws;
mod limits;
mod parts;
mod statics;
mod taken;

pub use given::rows_given;
pub use laws::given_rows_are_legal;
pub use parts::GrantParts;
pub use taken::rows_taken;
