//! The rows of the grant tables: which accounts there are, and what each holds. Rows come and go one by one, or by lists.
//!
//! MySQL 8.0 Reference Manual, "Grant Tables".
#![tactic(auto)]

mod accounts;
mod changes;
mod held;
mod layer;
mod limits;
mod listing;
mod naming;
mod nodes;
mod opening;
mod order;
mod room;
mod rows;
mod take;

pub use accounts::empty_verifier;
pub use acl_model::{AccountData, Row};
pub use naming::rows_naming_any;
pub use room::Room;
pub use rows::Rows;
pub use take::take_all;
