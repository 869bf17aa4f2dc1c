//! The privileges of a MySQL 8.0 server, their names and levels, and sets of them.
#![tactic(auto)]

mod dynamic;
mod dynamic_iter;
mod dynamic_set;
mod laws;
mod level;
mod plain;
mod privilege;
mod static_iter;
mod static_set;

pub use dynamic::Dynamic;
pub use dynamic_iter::DynIter;
pub use dynamic_set::DynSet;
pub use laws::{names_are_distinct, names_are_words, same_bits, same_dynamic_bits};
pub use level::Level;
pub use plain::Plain;
pub use privilege::{Privilege, by_name, name};
pub use static_iter::StaticIter;
pub use static_set::Static;
