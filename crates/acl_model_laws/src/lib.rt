//! Laws of the definitions in `acl_model`, each the contract of a function that does nothing, and worked examples, which the
//! specifications have the checker compute.
#![tactic(auto)]

mod laws;

pub use laws::{first_unmet_need_is_denied, history_grows_by_one, statements_are_refused_once};
