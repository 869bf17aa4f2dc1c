ghost use Rattle.std.specs.Prelude.{◌≡◌, ◌<◌, ◌^◌, All, IfOk, length};
ghost use Rattle.grant_lex.specs.Token.{IsSpan};
ghost use Rattle.grant_words.specs.Lexemes.{lexeme_of, lexemes_of};

use crate::{Lexeme, TokenValue};
use grant_lex::Token;
use std::alloc::{AllocError, Global};

fn lexeme(alloc: Global, text: &str, token: &Token) -> Result<Lexeme, AllocError>
    requires short { length text.now < 2 ^ 32 }
    requires span { IsSpan text.now token.now }
    ensures { IfOk result (λ made. made ≡ lexeme_of text.now token.now) }
{
    let value = TokenValue::of(alloc, &text[token.from as usize..token.to as usize])?;
    Ok(Lexeme {
        kind: token.kind,
        value,
    })
}

/// The tokens of a text with what they stand for, in order.
pub fn lexemes(alloc: Global, text: &str, tokens: &[Token]) -> Result<Vec<Lexeme>, AllocError>
    requires short { length text.now < 2 ^ 32 }
    requires spans { All (IsSpan text.now) tokens.now }
    ensures { IfOk result (λ lexemes. lexemes.items ≡ lexemes_of text.now tokens.now) }
{
    let mut lexemes = Vec::new(alloc);
    for token in tokens {
        lexemes.push(lexeme(alloc, text, token)?)?;
    }
    Ok(lexemes)
}
