//! The fields of entries, read from the front of bytes, and the rules between them.
#![tactic(auto)]

mod fields;
mod rules;

pub use fields::{FieldFault, host_at, long_text_at, number_at, short_text_at, user_at};
pub use rules::{comes_behind, may_restrict, may_stand};
