//! Classes of tokens.

ghost use Rattle.std.specs.Prelude.{◌≡◌, Bool, Some, None, Ok, Err, IfOk, MatchResult, cond, option_map};
ghost use Rattle.acl_grammar.specs.Code.{Gives};
ghost use Rattle.acl_grammar.specs.Grammar.Grammar.{token};
ghost use Rattle.acl_grammar.specs.Reader.{Sample, expected, read};

use crate::found::Found;
use crate::refusal::{Refusal, Unexpected};
use std::alloc::{AllocError, Global};

/// A class of tokens, such as a keyword or a mark.
pub trait Class<T> {
    ghost is: { Self → T → Bool };

    /// Whether the token is of the class.
    fn has(&self, token: &T) -> bool
        ensures { result ≡ is self.now token.now };
}

/// The tokens behind the next one, which is to be of the class.
pub fn expect<'a, T, C: Class<T>>(class: &C, tokens: &'a [T]) -> Result<&'a [T], Unexpected<'a, T>>
    ensures { MatchResult result (λ rest. expected (C.is class.now) tokens.now ≡ Ok rest.now)
        (λ unexpected. expected (C.is class.now) tokens.now ≡ Err unexpected.rest.now) }
{
    match tokens {
        [token, rest @ ..] if class.has(token) => Ok(rest),
        _ => Err(Unexpected { rest: tokens }),
    }
}

/// A class of tokens of which each has a value, such as a name or a number.
pub trait TokenClass<T> {
    type Value: Drop;

    ghost Meaning: { Type 0 };

    ghost view: { Self.Value → Meaning };

    ghost is: { T → Bool };

    ghost value: { T → Meaning };

    /// The token's value, or none where the token is not of the class.
    fn value_of(alloc: Global, token: &T) -> Result<Option<Self::Value>, AllocError>
        ensures { IfOk result (λ found. option_map view found ≡ cond (is token.now) (Some (value token.now)) None) };

    ghost sample: { Sample is };
}

/// The next token's value, where the token is of the class.
pub fn token_of<'a, C: TokenClass<T>, T>(
    alloc: Global,
    tokens: &'a [T],
) -> Result<Found<'a, T, C::Value>, Refusal<'a, T>>
    ensures { Gives C.view result (read (token C.is C.value) tokens.now) }
{
    let [next, rest @ ..] = tokens else {
        return Err(Refusal::At(tokens));
    };
    match C::value_of(alloc, next)? {
        Some(value) => Ok(Found { value, rest }),
        None => Err(Refusal::At(tokens)),
    }
}
