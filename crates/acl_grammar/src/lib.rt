//! Grammars as data, with one reader that is exact: what is read is spelled, what is spelled is read, and a
//! refusal is at the first token with which no spelling goes on.
//!
//! A language writes its rules as values of `Grammar`, implements `Rule` for the ones that others name, and
//! reads whole lists by `read_whole` or `read_either`. Tokens may be of any type.
#![tactic(auto)]

mod class;
mod complete;
mod either;
mod found;
mod laws;
mod refusal;
mod repeat;
mod rule;

pub use class::{Class, TokenClass, expect, token_of};
pub use complete::{read_either, read_whole};
pub use either::Either;
pub use found::Found;
pub use laws::{SaneGrammar, lists_are_refused_once, reader_is_exact, whole_reader_is_exact};
pub use refusal::{Refusal, Unexpected};
pub use repeat::{list_of, many_of};
pub use rule::{Rule, Starts, choice_of};
