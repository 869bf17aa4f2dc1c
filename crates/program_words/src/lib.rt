//! The command line: the words after the program's name, and what they ask for.
#![tactic(auto)]

mod form;
mod number;
mod operands;
mod parser;
mod read;

pub use form::Form;
pub use read::read_form;
