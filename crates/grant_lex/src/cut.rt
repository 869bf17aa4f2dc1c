ghost use Rattle.std.specs.Prelude.{◌≡◌, ◌+◌, ◌<◌, ◌≤◌, ◌^◌, ℕ, List, [], Some, length, All, IfOk, IfErr};
ghost use Rattle.grant_lex.specs.Next.{BeginsWithout, IsOf};
ghost use Rattle.grant_lex.specs.Token.{AnswersTokens, AreSpans, Fails, HasFault, IsCut, IsFaultOf, IsSpan, IsNextToken, Reads, AnswersFault, StandsAt};
ghost use Rattle.grant_lex.specs.declared.class.Class.TheVariants.{Blank};
ghost use Rattle.grant_lex.specs.declared.refusal.LexRefusal.{LexRefusal};
ghost use Rattle.grant_lex.specs.declared.sorts.Token.{Token};

use crate::class::{Class, class_of, run_length};
use crate::inside::quoted_length;
use crate::refusal::LexRefusal;
use crate::sorts::{Kind, Token};
use acl_items::Items;
use std::alloc::Global;

/// The token that `bytes` begin with, the first of which stands at `from` and is no blank.
fn token_at(bytes: &[u8], from: u32) -> Result<Token, LexRefusal>
    requires some { 0 < length bytes.now }
    requires begins { BeginsWithout (IsOf Blank) bytes.now }
    requires room { from + length bytes.now < 2 ^ 32 }
    ensures ok { IfOk result (λ token. (rest : List ℕ) × StandsAt from token bytes.now rest) }
    ensures err { IfErr result (λ fault. Fails from bytes.now fault) }
{
    let first = bytes[0];
    let (kind, length) = match class_of(first) {
        Class::Word => (Kind::Word, run_length(bytes, Class::Word)),
        Class::Mark => (Kind::Mark(first), 1),
        Class::Quote => (Kind::Quoted, quoted_length(first, &bytes[1..], from)?),
        Class::Backquote => (Kind::Backquoted, quoted_length(first, &bytes[1..], from)?),
        Class::Blank | Class::Other => return Err(LexRefusal::BadByte { offset: from }),
    };
    let to = from + length as u32;
    Ok(Token { kind, from, to })
}

/// The first token of `bytes`, the first of which stands at `at`; none where they are blanks alone.
fn next_token(bytes: &[u8], at: u32) -> Result<Option<Token>, LexRefusal>
    requires { at + length bytes.now < 2 ^ 32 }
    ensures ok { IfOk result (λ next. IsNextToken at bytes.now next) }
    ensures err { IfErr result (λ fault. Reads at bytes.now [] (Some fault)) }
{
    let blanks = run_length(bytes, Class::Blank);
    if blanks == bytes.len() {
        return Ok(None);
    }
    let token = token_at(&bytes[blanks..], at + blanks as u32)?;
    Ok(Some(token))
}

/// The tokens of `text`, in order, in one pass.
pub fn tokens(alloc: Global, text: &str) -> Result<Items<Token>, LexRefusal>
    requires { length text.now < 2 ^ 32 }
    // The text is cut into the tokens, and into no others.
    ensures found { IfOk result (λ tokens. IsCut text.now tokens) }
    ensures only { (others : List Token) → IsCut text.now others → AnswersTokens result others }

    // They are slices of the text.
    ensures spans { IfOk result (λ tokens. AreSpans text.now 0 tokens) }
    ensures each { IfOk result (λ tokens. All (IsSpan text.now) tokens) }

    // Where the text has no tokens, the refusal names the first fault from the left, and nothing else is refused.
    ensures refused { IfErr result (λ refusal. IsFaultOf text.now refusal) }
    ensures exact { (fault : LexRefusal) → HasFault text.now fault → AnswersFault result fault }
{
    cut(alloc, text.as_bytes())
}

fn cut(alloc: Global, text: &[u8]) -> Result<Items<Token>, LexRefusal>
    requires { length text.now < 2 ^ 32 }
    ensures found { IfOk result (λ tokens. IsCut text.now tokens) }
    ensures refused { IfErr result (λ refusal. IsFaultOf text.now refusal) }
{
    let mut rest = text;
    let mut at = 0;
    let mut tokens = Items::new(alloc);
    while let Some(token) = next_token(rest, at)? {
        rest = &rest[(token.to - at) as usize..];
        at = token.to;
        tokens.push(token)?;
    }
    Ok(tokens)
}
