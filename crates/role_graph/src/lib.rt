//! Which account is granted to which as a role, and which accounts are reached along such grants.
//!
//! MySQL 8.0 Reference Manual, "Using Roles".
#![tactic(auto)]

mod closure;
mod graph;
mod link;
mod node_set;
mod order;
mod table;

pub use graph::{Added, Graph};
pub use link::Link;
pub use node_set::{NODES, NodeSet};
