//! Texts whose tokens are read by one rule, or by either of two.

ghost use Rattle.std.specs.Prelude.{◌≡◌, ◌<◌, ◌^◌, IfErr, IfOk, length};
ghost use Rattle.acl_grammar.specs.Code.{either_view};
ghost use Rattle.acl_grammar.specs.Spelling.{Disjoint, one_of, spells};
ghost use Rattle.grant_parse.specs.Texts.{IsSpelled, IsSyntaxRefusal};

use crate::cutting::cut;
use acl_grammar::{Either, Refusal, Rule, read_either, read_whole};
use grant_refusal::ParseRefusal;
use grant_words::Lexeme;
use std::alloc::Global;

/// What the text spells by a rule.
#[tactic(auto, using(crate::proofs::Places::within_tokens))]
pub fn read_text<R: Rule<Lexeme>>(alloc: Global, text: &str) -> Result<R::Value, ParseRefusal>
    requires { length text.now < 2 ^ 32 }
    ensures ok { IfOk result (λ value. IsSpelled (spells R.grammar) text.now (R.view value)) }
    ensures err { IfErr result (IsSyntaxRefusal (spells R.grammar) text.now) }
{
    let tokens = cut(alloc, text)?;
    match read_whole::<R, Lexeme>(alloc, tokens.lexemes.as_slice()) {
        Ok(value) => Ok(value),
        Err(Refusal::NoMemory) => Err(ParseRefusal::NoMemory),
        Err(Refusal::At(rest)) => Err(ParseRefusal::Syntax {
            offset: tokens.place(text, rest.len()),
        }),
    }
}

/// What the text spells by either of two rules, which no list of tokens is spelled by both of.
#[tactic(auto, using(crate::proofs::Places::within_tokens))]
pub fn read_text_either<R: Rule<Lexeme>, S: Rule<Lexeme>>(
    alloc: Global,
    text: &str,
) -> Result<Either<R::Value, S::Value>, ParseRefusal>
    requires short { length text.now < 2 ^ 32 }
    requires apart { Disjoint R.grammar S.grammar }
    ensures ok { IfOk result (λ value. IsSpelled (spells (one_of R.grammar S.grammar)) text.now (either_view R.view S.view value)) }
    ensures err { IfErr result (IsSyntaxRefusal (spells (one_of R.grammar S.grammar)) text.now) }
{
    let tokens = cut(alloc, text)?;
    match read_either::<R, S, Lexeme>(alloc, tokens.lexemes.as_slice()) {
        Ok(value) => Ok(value),
        Err(Refusal::NoMemory) => Err(ParseRefusal::NoMemory),
        Err(Refusal::At(rest)) => Err(ParseRefusal::Syntax {
            offset: tokens.place(text, rest.len()),
        }),
    }
}
