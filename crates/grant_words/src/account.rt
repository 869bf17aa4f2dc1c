ghost use Rattle.std.specs.Prelude.{◌≡◌, ℕ, List, IfOk, codes};
ghost use Rattle.acl_grammar.specs.Code.{Gives};
ghost use Rattle.acl_grammar.specs.Reader.{read};
ghost use Rattle.acl_names.specs.declared.auth.AuthId.{AuthId};
ghost use Rattle.grant_words.specs.Names.{account, at_host, ident, role, same};
ghost use Rattle.grant_words.specs.Samples.{account_sane, ident_sane, role_sane};
ghost use Rattle.grant_words.specs.Syntax.{grammar_of};

use crate::names::{Host, Identifier, RoleUser, User};
use crate::{Lexeme, Mark};
use acl_grammar::{Found, Refusal, Rule, expect, token_of};
use acl_names::{AuthId, HostText, Ident, NameRefusal};
use std::alloc::{AllocError, Global};

/// An account: a user, and `@` and a host, or any host.
///
/// MySQL 8.0 Reference Manual, "Specifying Account Names".
pub struct Account;

impl Rule<Lexeme> for Account {
    type Value = AuthId;

    ghost Meaning = { AuthId };

    ghost view = { λ value. value };

    ghost grammar = { grammar_of account };

    #[tactic(auto, unfolding(crate::specs::Names::account))]
    fn read<'a>(
        alloc: Global,
        tokens: &'a [Lexeme],
    ) -> Result<Found<'a, Lexeme, AuthId>, Refusal<'a, Lexeme>> {
        let user = token_of::<User, Lexeme>(alloc, tokens)?;
        let host = at_host(alloc, user.rest)?;
        Ok(Found {
            value: AuthId {
                user: user.value,
                host: host.value,
            },
            rest: host.rest,
        })
    }

    ghost sane = { account_sane };
}

/// A role: an account whose user is not empty.
///
/// MySQL 8.0 Reference Manual, "Specifying Role Names".
pub struct Role;

impl Rule<Lexeme> for Role {
    type Value = AuthId;

    ghost Meaning = { AuthId };

    ghost view = { λ value. value };

    ghost grammar = { grammar_of role };

    #[tactic(auto, unfolding(crate::specs::Names::role))]
    fn read<'a>(
        alloc: Global,
        tokens: &'a [Lexeme],
    ) -> Result<Found<'a, Lexeme, AuthId>, Refusal<'a, Lexeme>> {
        let user = token_of::<RoleUser, Lexeme>(alloc, tokens)?;
        let host = at_host(alloc, user.rest)?;
        Ok(Found {
            value: AuthId {
                user: user.value,
                host: host.value,
            },
            rest: host.rest,
        })
    }

    ghost sane = { role_sane };
}

/// An identifier, as it is written.
///
/// MySQL 8.0 Reference Manual, "Schema Object Names".
pub struct Name;

impl Rule<Lexeme> for Name {
    type Value = Ident;

    ghost Meaning = { List ℕ };

    ghost view = { λ value. value };

    ghost grammar = { grammar_of ident };

    #[tactic(auto, unfolding(crate::specs::Names::ident))]
    fn read<'a>(
        alloc: Global,
        tokens: &'a [Lexeme],
    ) -> Result<Found<'a, Lexeme, Ident>, Refusal<'a, Lexeme>> {
        token_of::<Identifier, Lexeme>(alloc, tokens)
    }

    ghost sane = { ident_sane };
}

#[tactic(auto, unfolding(crate::specs::Names::at_host))]
fn at_host<'a>(
    alloc: Global,
    tokens: &'a [Lexeme],
) -> Result<Found<'a, Lexeme, HostText>, Refusal<'a, Lexeme>>
    ensures { Gives same result (read (grammar_of at_host) tokens.now) }
{
    match expect(&Mark(b'@'), tokens) {
        Ok(rest) => token_of::<Host, Lexeme>(alloc, rest),
        Err(_) => Ok(Found {
            value: any_host(alloc)?,
            rest: tokens,
        }),
    }
}

fn any_host(alloc: Global) -> Result<HostText, AllocError>
    ensures { IfOk result (λ host. host ≡ codes "%") }
{
    match HostText::read(alloc, "%") {
        Ok(host) => Ok(host),
        Err(_) => Err(AllocError),
    }
}
