//! Passwords and their verifiers.

ghost use Rattle.std.specs.Prelude.{◌≡◌, if◌then◌else◌, Some, None};
ghost use Rattle.std.specs.Char.{is_ascii_uppercase};
ghost use Rattle.std.specs.List.{list_any};
ghost use Rattle.acl_grammar.specs.Code.{Gives};
ghost use Rattle.acl_grammar.specs.Reader.{read};
ghost use Rattle.acl_names.specs.declared.policy.Verifier.{Verifier};
ghost use Rattle.grant_words.specs.Classes.{is};
ghost use Rattle.grant_words.specs.Syntax.{grammar_of};
ghost use Rattle.user_statements.specs.Sanity.{digest_sample, password_sample};
ghost use Rattle.user_statements.specs.Secrets.{by_secret, digest_class, digest_of, is_digest, password_class, secret, verifier_of};

use acl_grammar::{Found, Refusal, TokenClass, expect, token_of};
use acl_names::Verifier;
use grant_lex::Kind;
use grant_words::{Keyword, Lexeme};
use hex::FromHex;
use login_throttle::verifier;
use std::alloc::{AllocError, Global};

/// A password, as a string, of which the verifier is kept.
pub struct Password;

impl TokenClass<Lexeme> for Password {
    type Value = Verifier;

    ghost Meaning = { Verifier };

    ghost view = { λ value. value };

    ghost is = { is password_class };

    ghost value = { λ token. verifier_of token.value };

    #[tactic(auto, unfolding(grant_words::specs::Classes::is))]
    fn value_of(_alloc: Global, token: &Lexeme) -> Result<Option<Verifier>, AllocError> {
        if token.kind == Kind::Quoted {
            Ok(Some(verifier(token.value.as_str())))
        } else {
            Ok(None)
        }
    }

    ghost sample = { password_sample };
}

/// A verifier, as 64 hexadecimal digits in a string.
struct Digest;

impl TokenClass<Lexeme> for Digest {
    type Value = Verifier;

    ghost Meaning = { Verifier };

    ghost view = { λ value. value };

    ghost is = { is digest_class };

    ghost value = { λ token. digest_of token.value };

    #[tactic(auto, unfolding(grant_words::specs::Classes::is))]
    fn value_of(_alloc: Global, token: &Lexeme) -> Result<Option<Verifier>, AllocError> {
        if token.kind == Kind::Quoted {
            Ok(verifier_from(token.value.as_str()))
        } else {
            Ok(None)
        }
    }

    ghost sample = { digest_sample };
}

/// The verifier that 64 digits stand for.
fn verifier_from(text: &str) -> Option<Verifier>
    ensures { result ≡ (if is_digest text.now then Some (digest_of text.now) else None) }
{
    let bytes = <[u8; 32] as FromHex>::from_hex(text).ok()?;
    if has_capital(text.as_bytes()) {
        None
    } else {
        Some(Verifier(bytes))
    }
}

fn has_capital(text: &[u8]) -> bool
    ensures { result ≡ list_any is_ascii_uppercase text.now }
{
    text.iter().any(|byte| byte.is_ascii_uppercase())
}

/// A password, or VERIFIER and its digest.
#[tactic(auto, unfolding(crate::specs::Secrets::secret))]
pub(crate) fn secret<'a>(
    alloc: Global,
    tokens: &'a [Lexeme],
) -> Result<Found<'a, Lexeme, Verifier>, Refusal<'a, Lexeme>>
    ensures { Gives (λ value. value) result (read (grammar_of secret) tokens.now) }
{
    match expect(&Keyword("VERIFIER"), tokens) {
        Ok(rest) => token_of::<Digest, Lexeme>(alloc, rest),
        Err(_) => token_of::<Password, Lexeme>(alloc, tokens),
    }
}

/// IDENTIFIED BY, behind its first word.
#[tactic(auto, unfolding(crate::specs::Secrets::by_secret))]
pub(crate) fn by_secret<'a>(
    alloc: Global,
    tokens: &'a [Lexeme],
) -> Result<Found<'a, Lexeme, Verifier>, Refusal<'a, Lexeme>>
    ensures { Gives (λ value. value) result (read (grammar_of by_secret) tokens.now) }
{
    let rest = expect(&Keyword("BY"), tokens)?;
    secret(alloc, rest)
}
