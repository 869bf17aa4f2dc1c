//! What the named privileges of a GRANT, a REVOKE and a request mean.
//!
//! MySQL 8.0 Reference Manual, "GRANT Statement", "REVOKE Statement".
#![tactic(auto)]

mod columns;
mod gather;
mod item;
mod laws;
mod levels;
mod lowered;
mod refusal;
mod request;
mod schema;

pub use gather::gathered;
pub use item::{Item, Named};
pub use laws::{
    escaped_text_is_the_name, lowered_targets_stay, one_list_is_meant, own_items_fit,
    own_items_mean_the_list,
};
pub use levels::wrong_level;
pub use lowered::lowered_target;
pub use refusal::LevelRefusal;
pub use request::{Granted, granted_of, request_of};
pub use schema::read_schema;
