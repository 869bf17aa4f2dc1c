ghost use Rattle.std.specs.Prelude.{◌≡◌, ◌<◌, ◌≤◌, ◌^◌, All, IfErr, IfOk, length};
ghost use Rattle.grant_lex.specs.Token.{IsCut, IsSpan};
ghost use Rattle.grant_parse.specs.Texts.{IsTokenRefusal, place_of};
ghost use Rattle.grant_words.specs.Lexemes.{lexemes_of};

use acl_items::Items;
use grant_lex::{LexRefusal, Token, tokens};
use grant_refusal::ParseRefusal;
use grant_words::{Lexeme, lexemes};
use std::alloc::Global;

/// The tokens of a text: where they stand, and what they stand for.
#[derive(Drop)]
pub struct TextTokens {
    pub tokens: Items<Token>,
    pub lexemes: Vec<Lexeme>,
}

/// Cuts the text into its tokens.
pub fn cut(alloc: Global, text: &str) -> Result<TextTokens, ParseRefusal>
    requires { length text.now < 2 ^ 32 }
    ensures tokens { IfOk result (λ made. IsCut text.now made.tokens) }
    ensures lexemes { IfOk result (λ made. made.lexemes.items ≡ lexemes_of text.now made.tokens) }
    ensures err { IfErr result (IsTokenRefusal text.now) }
{
    let tokens = match tokens(alloc, text) {
        Ok(tokens) => tokens,
        Err(LexRefusal::BadByte { offset } | LexRefusal::Unclosed { offset }) => {
            return Err(ParseRefusal::Syntax { offset });
        }
        Err(LexRefusal::NoMemory) => return Err(ParseRefusal::NoMemory),
    };
    match lexemes(alloc, text, tokens.as_slice()) {
        Ok(lexemes) => Ok(TextTokens { tokens, lexemes }),
        Err(_) => Err(ParseRefusal::NoMemory),
    }
}

impl TextTokens {
    /// Where the last `left` tokens of the text begin; its end where these are none.
    pub fn place(&self, text: &str, left: usize) -> u32
        requires short { length text.now < 2 ^ 32 }
        requires within { left ≤ length self.now.tokens }
        ensures { result ≡ place_of text.now self.now.tokens left }
    {
        let tokens = self.tokens.as_slice();
        match &tokens[tokens.len() - left..] {
            [] => text.len() as u32,
            [token, ..] => token.from,
        }
    }
}
