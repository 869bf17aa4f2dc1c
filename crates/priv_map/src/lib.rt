//! The map of privileges: what each account holds, what a session has read of it, and the check of a request.
//!
//! MySQL 8.0 Reference Manual, "Access Control, Stage 2: Request Verification".
#![tactic(auto)]

mod acting;
mod check;
mod held;
mod levels;
mod map;
mod restrictions;
mod schema_held;
mod verdict;

pub use acting::Acting;
pub use held::Held;
pub use map::{MapChange, PrivMap};
pub use schema_held::SchemaHeld;
pub use verdict::Verdict;
