//! Lists with a mark between each two items, and rules that stand any number of times.

ghost use Rattle.std.specs.Prelude.{◌≡◌, false, map};
ghost use Rattle.acl_grammar.specs.Code.{Gives};
ghost use Rattle.acl_grammar.specs.Grammar.Grammar.{list, many};
ghost use Rattle.acl_grammar.specs.Reader.{nullable, read};

use crate::class::{Class, expect};
use crate::found::Found;
use crate::refusal::Refusal;
use crate::rule::{Rule, Starts};
use std::alloc::Global;

/// One or more of a rule, with the mark between each two. A mark with no item behind it is refused behind it.
pub fn list_of<'a, R: Rule<T>, T, C: Class<T>>(
    alloc: Global,
    mark: &C,
    tokens: &'a [T],
) -> Result<Found<'a, T, Vec<R::Value>>, Refusal<'a, T>>
    ensures { Gives (λ values. map R.view values.items) result (read (list (C.is mark.now) R.grammar) tokens.now) }
{
    let first = R::read(alloc, tokens)?;
    let mut values = Vec::new(alloc);
    values.push(first.value)?;
    let mut rest = first.rest;
    'items: while let Ok(behind) = expect(mark, rest) {
        let next = R::read(alloc, behind)?;
        values.push(next.value)?;
        rest = next.rest;
    }
    Ok(Found {
        value: values,
        rest,
    })
}

/// Any number of a rule, none among them, one behind the other, as options in any order. What a repeated
/// option means is for the caller to say.
pub fn many_of<'a, R: Starts<T>, T>(
    alloc: Global,
    tokens: &'a [T],
) -> Result<Found<'a, T, Vec<R::Value>>, Refusal<'a, T>>
    requires { nullable R.grammar ≡ false }
    ensures { Gives (λ values. map R.view values.items) result (read (many R.grammar) tokens.now) }
{
    let mut values = Vec::new(alloc);
    let mut rest = tokens;
    'items: while R::starts(rest) {
        let next = R::read(alloc, rest)?;
        values.push(next.value)?;
        rest = next.rest;
    }
    Ok(Found {
        value: values,
        rest,
    })
}
