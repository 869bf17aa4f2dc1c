ghost use Rattle.std.specs.Prelude.{◌≡◌};
ghost use Rattle.acl_grammar.specs.Code.{Gives};
ghost use Rattle.acl_grammar.specs.Reader.{read};
ghost use Rattle.grant_words.specs.Lists.{accounts, roles};
ghost use Rattle.grant_words.specs.Syntax.{grammar_of};

use crate::account::{Account, Role};
use crate::{Lexeme, Mark};
use acl_grammar::{Found, Refusal, list_of};
use acl_items::Items;
use acl_names::AuthId;
use std::alloc::Global;

/// One account or more, with commas.
#[tactic(auto, using(crate::proofs::Mapped::map_same), unfolding(crate::specs::Lists::accounts))]
pub fn accounts<'a>(
    alloc: Global,
    tokens: &'a [Lexeme],
) -> Result<Found<'a, Lexeme, Items<AuthId>>, Refusal<'a, Lexeme>>
    ensures { Gives (λ list. list) result (read (grammar_of accounts) tokens.now) }
{
    let found = list_of::<Account, Lexeme, Mark>(alloc, &Mark(b','), tokens)?;
    Ok(Found {
        value: Items::from_vec(found.value),
        rest: found.rest,
    })
}

/// One role or more, with commas.
#[tactic(auto, using(crate::proofs::Mapped::map_same), unfolding(crate::specs::Lists::roles))]
pub fn roles<'a>(
    alloc: Global,
    tokens: &'a [Lexeme],
) -> Result<Found<'a, Lexeme, Items<AuthId>>, Refusal<'a, Lexeme>>
    ensures { Gives (λ list. list) result (read (grammar_of roles) tokens.now) }
{
    let found = list_of::<Role, Lexeme, Mark>(alloc, &Mark(b','), tokens)?;
    Ok(Found {
        value: Items::from_vec(found.value),
        rest: found.rest,
    })
}
