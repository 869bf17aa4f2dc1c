//! What stands after a list of statements, who reaches whom along roles, and what is allowed: the definitions on which every
//! other claim rests. They stand in the specifications, in the order of docs/DEFINITIONS.md; the code here is the type of
//! the rows. Laws and worked examples of the definitions stand in `acl_model_laws`.
//!
//! MySQL 8.0 Reference Manual, "Access Control and Account Management".
#![tactic(auto)]

mod account_data;
mod laws;
mod row;

pub use account_data::AccountData;
pub use laws::same_rows_are_equal;
pub use row::Row;
