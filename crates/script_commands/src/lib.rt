//! The grammar of the commands that a line of a script may have beside statements, the code that reads them, and where
//! the moment of a CONNECT begins.
#![tactic(auto)]

mod client;
mod command;
mod connection;
mod laws;
mod moment;
mod number;
mod roles;
mod rules;
mod session;

pub use command::{Connect, RawCommand};
pub use laws::{commands_are_no_statements, one_option_is_read};
pub use moment::{Timed, timed_connect};
pub use rules::{CommandRule, ConnectRule};
