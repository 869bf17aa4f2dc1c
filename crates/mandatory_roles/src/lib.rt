//! The value of the system variable that names the mandatory roles: a text that spells a list of roles.
#![tactic(auto)]

mod cutting;
mod laws;
mod read;
mod runs;

pub use laws::{roles_are_spelled, written_roles_are_spelled};
pub use read::{ROLE_LIMIT, read_roles};
