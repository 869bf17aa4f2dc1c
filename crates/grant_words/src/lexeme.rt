ghost use Rattle.std.specs.Prelude.{◌≡◌, ◌<◌, ◌^◌, ℕ, List, IfOk, length, string_bytes};
ghost use Rattle.grant_lex.specs.Value.{value_of};

use grant_lex::{Kind, value_of};
use std::alloc::{AllocError, Global};
use std::marker::Model;

/// What a token stands for: a word and a mark for themselves, a string and a name in backquotes for what is between
/// their quotes.
#[derive(Debug, Drop)]
pub struct TokenValue {
    text: String,
}

impl Model for TokenValue {
    ghost Value = { List ℕ };

    ghost view = { λ value. string_bytes value.text };

    ghost invariant = { λ value. length (string_bytes value.text) < 2 ^ 32 };
}

impl TokenValue {
    /// What the text of a token stands for.
    #[tactic(auto, using(crate::proofs::Values::value_is_shorter))]
    pub fn of(alloc: Global, text: &str) -> Result<Self, AllocError>
        requires { length text.now < 2 ^ 32 }
        ensures { IfOk result (λ value. value ≡ value_of text.now) }
    {
        let text = value_of(alloc, text)?;
        Ok(TokenValue { text })
    }

    /// The value as text.
    pub fn as_str(&self) -> &str
        ensures value { result.now ≡ self.now }
        ensures short { length result.now < 2 ^ 32 }
    {
        self.text.as_str()
    }
}

/// A token with what it stands for.
#[derive(Debug, Drop)]
pub struct Lexeme {
    pub kind: Kind,
    pub value: TokenValue,
}
