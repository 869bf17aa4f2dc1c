//! Whole lists of tokens, read by one rule or by either of two.

ghost use Rattle.std.specs.Prelude.{◌≡◌, IfErr, IfOk, MatchResult};
ghost use mathlib.Core.Logic.{inl, inr};
ghost use Rattle.acl_grammar.specs.Code.{Answers, IsNoMemory, RefusedAs, either_view};
ghost use Rattle.acl_grammar.specs.Grammar.Grammar.{to};
ghost use Rattle.acl_grammar.specs.Reader;
ghost use Rattle.acl_grammar.specs.Spelling.{Disjoint, Refused, one_of, spells};

use crate::either::Either;
use crate::refusal::Refusal;
use crate::rule::Rule;
use std::alloc::Global;

/// The value that the whole list spells.
pub fn read_whole<'a, R: Rule<T>, T>(
    alloc: Global,
    tokens: &'a [T],
) -> Result<R::Value, Refusal<'a, T>>
    ensures found { IfOk result (λ value. spells R.grammar tokens.now (R.view value)) }
    ensures only { (meaning : R.Meaning) → spells R.grammar tokens.now meaning
        → MatchResult result (λ value. meaning ≡ R.view value) IsNoMemory }
    ensures refused { IfErr result (RefusedAs (Refused (spells R.grammar) tokens.now)) }
{
    read_to_end::<R, T>(alloc, tokens)
}

/// The value that the whole list spells by one of two rules. Where neither spells it, the refusal that is
/// further on.
pub fn read_either<'a, R: Rule<T>, S: Rule<T>, T>(
    alloc: Global,
    tokens: &'a [T],
) -> Result<Either<R::Value, S::Value>, Refusal<'a, T>>
    requires { Disjoint R.grammar S.grammar }
    ensures found { IfOk result (λ value. spells (one_of R.grammar S.grammar) tokens.now (either_view R.view S.view value)) }
    ensures only { (meaning : _) → spells (one_of R.grammar S.grammar) tokens.now meaning
        → MatchResult result (λ value. meaning ≡ either_view R.view S.view value) IsNoMemory }
    ensures refused { IfErr result (RefusedAs (Refused (spells (one_of R.grammar S.grammar)) tokens.now)) }
{
    read_furthest::<R, S, T>(alloc, tokens)
}

fn read_to_end<'a, R: Rule<T>, T>(
    alloc: Global,
    tokens: &'a [T],
) -> Result<R::Value, Refusal<'a, T>>
    ensures { Answers R.view result (Reader.read_whole R.grammar tokens.now) }
{
    let found = R::read(alloc, tokens)?;
    if found.rest.is_empty() {
        Ok(found.value)
    } else {
        Err(Refusal::At(found.rest))
    }
}

fn read_furthest<'a, R: Rule<T>, S: Rule<T>, T>(
    alloc: Global,
    tokens: &'a [T],
) -> Result<Either<R::Value, S::Value>, Refusal<'a, T>>
    ensures { Answers (either_view R.view S.view) result
        (Reader.read_either (to inl R.grammar) (to inr S.grammar) tokens.now) }
{
    let first = match read_to_end::<R, T>(alloc, tokens) {
        Ok(value) => return Ok(Either::First(value)),
        Err(Refusal::NoMemory) => return Err(Refusal::NoMemory),
        Err(Refusal::At(rest)) => rest,
    };
    let second = match read_to_end::<S, T>(alloc, tokens) {
        Ok(value) => return Ok(Either::Second(value)),
        Err(Refusal::NoMemory) => return Err(Refusal::NoMemory),
        Err(Refusal::At(rest)) => rest,
    };
    Err(Refusal::At(if first.len() <= second.len() {
        first
    } else {
        second
    }))
}
