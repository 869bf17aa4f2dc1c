//! The rows of the grant tables: which accounts there are, and what each holds. Rows come and go one by one, or by lists.
//!
//! MySQL 8.0 Reference Manual, "Grant Tables".
#![tactic(auto)]

mod accounts;
mod grants;
mod layer;
mod matching;
mod names;
mod naming;
mod order;
mod put;
mod rows;
mod take;
mod uses;

pub use accounts::empty_verifier;
pub use acl_model::{AccountData, Row};
pub use names::{names_dynamic, names_static};
pub use naming::rows_naming_any;
pub use put::put_all;
pub use rows::Rows;
pub use take::take_all;
