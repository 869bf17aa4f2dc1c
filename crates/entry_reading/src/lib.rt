//! Entries, read from bytes: exactly the bytes of an entry are read, and the first fault of all others is named.
#![tactic(auto)]

mod decoding;
mod fault;
mod front;
mod limits;
mod statement;

pub use decoding::{DecodeRefusal, decode};
