//! The choice of the account that a client is let in by: the patterns of hosts, their order, and the account chosen.
#![tactic(auto)]

mod address;
mod choice;
mod client;
mod form;
mod host_pattern;
mod laws;
mod listed;
mod wildcards;

pub use choice::{choose, is_ordered};
pub use client::Client;
pub use host_pattern::{HostPattern, HostRefusal};
pub use laws::{accounts_are_never_tied, addresses_are_spelled, refused_hosts_have_a_slash};
pub use listed::{Listed, order};
