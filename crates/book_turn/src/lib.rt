//! One book, whose calls are made by many threads, one after the other: a turn round a value that keeps a log of its calls.
#![tactic(auto)]

mod logged;
mod rule;
mod seat;
mod turn;
mod view;

pub use logged::Logged;
pub use seat::{CallerSeat, Note, Noted, Seated};
pub use turn::Turn;
