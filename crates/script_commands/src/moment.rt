//! Where the moment of a CONNECT begins.

ghost use Rattle.std.specs.Prelude.{◌≡◌, ◌<◌, ◌≤◌, ◌^◌, ℕ, List, length, drop, IfOk, IfSome, IsNone, Option, Some, None, ◌∷◌, ◌++◌, All, position};
ghost use Rattle.std.specs.List.{position_or_len};
ghost use Rattle.std.specs.Str.{IsCharBoundary};
ghost use Rattle.acl_grammar.specs.Reader.{read};
ghost use Rattle.grant_lex.specs.Token.{PastBlanks, Reads};
ghost use Rattle.grant_lex.specs.declared.refusal.LexRefusal.{LexRefusal};
ghost use Rattle.grant_lex.specs.declared.sorts.Token.{Token};
ghost use Rattle.grant_words.specs.Lexemes.{lexemes_of};
ghost use Rattle.grant_words.specs.Syntax.{grammar_of};
ghost use Rattle.script_commands.specs.Commands.{connect};
ghost use Rattle.script_commands.specs.Fronts.{IsCutFront, IsFaultAt, IsFirstFault, IsFront};
ghost use Rattle.script_commands.specs.Moments.{HasMoment, IsMomentAt, is_no_blank, option_of};
ghost use Rattle.script_commands.specs.declared.command.Connect.{Connect};

use crate::{Connect, ConnectRule};
use acl_grammar::{Refusal, Rule, expect};
use grant_lex::{LexRefusal, Token, is_blank, tokens};
use grant_words::{Keyword, Lexeme, lexemes};
use std::alloc::{AllocError, Global};

/// A CONNECT with the option AT.
#[derive(Debug, Drop)]
pub struct Timed {
    pub connect: Connect,
    /// Where the text of the moment begins, as a number of bytes.
    pub place: u32,
}

/// The CONNECT with the option AT that the text begins with. What stands behind the option's word may be any text.
pub fn timed_connect(alloc: Global, text: &str) -> Result<Option<Timed>, AllocError>
    requires { length text.now < 2 ^ 32 }
    ensures found { IfOk result (λ found. IfSome found (λ timed. HasMoment text.now timed.connect timed.place)) }
    ensures none { IfOk result (λ found. IsNone found → (made : Connect) (place : ℕ) → HasMoment text.now made place → ⊥) }
    ensures cut { IfOk result (λ found. IfSome found (λ timed. IsCharBoundary text.now timed.place)) }
{
    let length = front_length(alloc, text)?;
    timed_in(alloc, text, &text[..length])
}

// The same, where the front is cut into tokens as far as the text is.
fn timed_in(alloc: Global, text: &str, front: &str) -> Result<Option<Timed>, AllocError>
    requires short { length text.now < 2 ^ 32 }
    requires front { IsCutFront text.now front.now }
    ensures found { IfOk result (λ found. IfSome found (λ timed. HasMoment text.now timed.connect timed.place)) }
    ensures none { IfOk result (λ found. IsNone found → (made : Connect) (place : ℕ) → HasMoment text.now made place → ⊥) }
    ensures cut { IfOk result (λ found. IfSome found (λ timed. IsCharBoundary text.now timed.place)) }
{
    let Ok(tokens) = tokens(alloc, front) else {
        return Err(AllocError);
    };
    let lexemes = lexemes(alloc, front, tokens.as_slice())?;
    match option_in(alloc, lexemes.as_slice()) {
        Ok(Some((connect, left))) => Ok(Some(timed_at(text, tokens.as_slice(), connect, left))),
        Ok(None) => Ok(None),
        Err(error) => Err(error),
    }
}

// The moment behind the word AT that as many tokens follow.
fn timed_at(text: &str, tokens: &[Token], made: Connect, left: usize) -> Timed
    requires short { length text.now < 2 ^ 32 }
    requires reads { (end : Option LexRefusal) × Reads 0 text.now tokens.now end }
    requires found { option_of (read (grammar_of connect) (lexemes_of text.now tokens.now)) ≡ Some (made, left) }
    requires cuts { All (λ token. IsCharBoundary text.now token.to) tokens.now }
    ensures moment { HasMoment text.now result.connect result.place }
    ensures cut { IsCharBoundary text.now result.place }
{
    let option = token_before(tokens, left);
    Timed {
        connect: made,
        place: past_blanks(text.as_bytes(), option.to),
    }
}

// The token that as many others follow.
fn token_before(tokens: &[Token], left: usize) -> Token
    requires { left < length tokens.now }
    ensures { (before more : List Token) × (tokens.now ≡ before ++ result ∷ more) × (length more ≡ left) }
{
    tokens[tokens.len() - 1 - left]
}

// The CONNECT in front of a word AT, and the number of tokens behind that word.
fn option_in(alloc: Global, lexemes: &[Lexeme]) -> Result<Option<(Connect, usize)>, AllocError>
    ensures { IfOk result (λ found. found ≡ option_of (read (grammar_of connect) lexemes.now)) }
{
    let connect = match ConnectRule::read(alloc, lexemes) {
        Ok(connect) => connect,
        Err(Refusal::At(_)) => return Ok(None),
        Err(Refusal::NoMemory) => return Err(AllocError),
    };
    match expect(&Keyword("AT"), connect.rest) {
        Ok(behind) => Ok(Some((connect.value, behind.len()))),
        Err(_) => Ok(None),
    }
}

// How much of the text is cut into tokens before its fault, if it has one.
fn front_length(alloc: Global, text: &str) -> Result<usize, AllocError>
    requires { length text.now < 2 ^ 32 }
    ensures cut { IfOk result (IsCharBoundary text.now) }
    ensures front { IfOk result (λ size. (tokens : List Token) × IsFront text.now size tokens) }
{
    match fault_of(alloc, text) {
        Ok(Some(fault)) => length_before(alloc, text, fault),
        Ok(None) => Ok(text.len()),
        Err(error) => Err(error),
    }
}

// A bad pair stands in a string, so that what is before it has an open quote.
fn length_before(alloc: Global, text: &str, fault: usize) -> Result<usize, AllocError>
    requires short { length text.now < 2 ^ 32 }
    requires fault { IsFaultAt text.now fault }
    ensures cut { IfOk result (IsCharBoundary text.now) }
    ensures front { IfOk result (λ size. (tokens : List Token) × IsFront text.now size tokens) }
{
    match fault_of(alloc, &text[..fault]) {
        Ok(Some(quote)) => Ok(quote),
        Ok(None) => Ok(fault),
        Err(error) => Err(error),
    }
}

fn fault_of(alloc: Global, text: &str) -> Result<Option<usize>, AllocError>
    requires { length text.now < 2 ^ 32 }
    ensures { IfOk result (IsFirstFault text.now) }
{
    match tokens(alloc, text) {
        Ok(_) => Ok(None),
        Err(LexRefusal::BadByte { offset } | LexRefusal::Unclosed { offset }) => {
            Ok(Some(offset as usize))
        }
        Err(LexRefusal::NoMemory) => Err(AllocError),
    }
}

#[tactic(auto, using(crate::proofs::Blanks::past))]
fn past_blanks(text: &[u8], from: u32) -> u32
    requires short { length text.now < 2 ^ 32 }
    requires within { from ≤ length text.now }
    ensures within { result ≤ length text.now }
    ensures moment { PastBlanks (IsMomentAt result) from (drop from text.now) }
{
    let behind = &text[from as usize..];
    from + blanks(behind) as u32
}

#[tactic(auto, using(crate::proofs::Blanks::first_place, crate::proofs::Blanks::no_place))]
fn blanks(text: &[u8]) -> usize
    ensures within { result ≤ length text.now }
    ensures count { result ≡ position_or_len is_no_blank text.now }
{
    match first_other(text) {
        Some(count) => count,
        None => text.len(),
    }
}

fn first_other(text: &[u8]) -> Option<usize>
    ensures { result ≡ position is_no_blank text.now }
{
    text.iter().position(|byte| !is_blank(*byte))
}
