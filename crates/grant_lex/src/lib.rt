//! Tokens of account statements: words, strings, names in backquotes and marks, each a slice of its text; and the
//! words that are reserved.
//!
//! MySQL 8.0 Reference Manual, "String Literals", "Schema Object Names", "Keywords and Reserved Words" and
//! "Specifying Account Names".
#![tactic(auto)]

mod class;
mod cut;
mod inside;
mod laws;
mod refusal;
mod reserved;
mod sorts;
mod value;

pub use class::{is_blank, is_word_byte};
pub use cut::tokens;
pub use laws::{printed_tokens_are_read, texts_have_one_reading, values_are_meant};
pub use refusal::LexRefusal;
pub use reserved::is_reserved;
pub use sorts::{Kind, Token};
pub use value::value_of;
