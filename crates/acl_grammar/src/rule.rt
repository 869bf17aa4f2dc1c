//! Rules of a grammar, with the code that reads them.

ghost use Rattle.std.specs.Prelude.{◌≡◌};
ghost use Rattle.acl_grammar.specs.Code.{Gives, either_view};
ghost use Rattle.acl_grammar.specs.Grammar.{Grammar};
ghost use Rattle.acl_grammar.specs.Reader.{Sane, begins, first, read};
ghost use Rattle.acl_grammar.specs.Spelling.{one_of};

use crate::either::Either;
use crate::found::Found;
use crate::refusal::Refusal;
use std::alloc::Global;

/// A rule of a grammar, with the code that reads it. `view` is what a read value means; that the grammar is
/// sane is all that a rule has to prove of it.
pub trait Rule<T> {
    type Value: Drop;

    ghost Meaning: { Type 0 };

    ghost view: { Self.Value → Meaning };

    ghost grammar: { Grammar T Meaning };

    /// Reads the front of the tokens, as far as the rule goes.
    fn read<'a>(alloc: Global, tokens: &'a [T]) -> Result<Found<'a, T, Self::Value>, Refusal<'a, T>>
        ensures { Gives view result (read grammar tokens.now) };

    ghost sane: { Sane grammar };
}

/// A rule for which code asks whether it begins here, as an option or the first of two choices.
pub trait Starts<T>: Rule<T> {
    /// Whether the next token is one with which the rule begins.
    fn starts(tokens: &[T]) -> bool
        ensures { result ≡ begins (first Self.grammar) tokens.now };
}

/// The first rule where the next token is one with which it begins, or else the second one.
pub fn choice_of<'a, R: Starts<T>, S: Rule<T>, T>(
    alloc: Global,
    tokens: &'a [T],
) -> Result<Found<'a, T, Either<R::Value, S::Value>>, Refusal<'a, T>>
    ensures { Gives (either_view R.view S.view) result (read (one_of R.grammar S.grammar) tokens.now) }
{
    if R::starts(tokens) {
        let found = R::read(alloc, tokens)?;
        return Ok(Found {
            value: Either::First(found.value),
            rest: found.rest,
        });
    }
    let found = S::read(alloc, tokens)?;
    Ok(Found {
        value: Either::Second(found.value),
        rest: found.rest,
    })
}
