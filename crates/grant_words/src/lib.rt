//! Tokens of account statements with what they stand for, the classes of them that may stand at a place, and
//! grammars over these classes.
//!
//! MySQL 8.0 Reference Manual, "Schema Object Names", "Keywords and Reserved Words" and "Specifying Account Names".
#![tactic(auto)]

mod account;
mod class;
mod cut;
mod lexeme;
mod lists;
mod names;
mod number;

pub use account::{Account, Name, Role};
pub use class::{Keyword, Mark};
pub use cut::lexemes;
pub use lexeme::{Lexeme, TokenValue};
pub use lists::{accounts, roles};
pub use names::{Host, Identifier, RoleUser, User, is_identifier_token};
pub use number::number_of;
