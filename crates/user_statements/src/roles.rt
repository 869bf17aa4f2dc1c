//! GRANT and REVOKE of roles, and REVOKE ALL, each behind its first words.

ghost use Rattle.std.specs.Prelude.{◌≡◌};
ghost use Rattle.acl_grammar.specs.Code.{Gives};
ghost use Rattle.acl_grammar.specs.Reader.{read};
ghost use Rattle.grant_words.specs.Syntax.{grammar_of};
ghost use Rattle.user_statements.specs.Statements.{grant_roles, revoke, revoke_all, revoke_roles};

use crate::flags::with_admin_option;
use acl_grammar::{Found, Refusal, expect};
use acl_stmt::Statement;
use grant_words::{Keyword, Lexeme, Mark, accounts, roles};
use std::alloc::Global;

/// GRANT of roles.
#[tactic(auto, unfolding(crate::specs::Statements::grant_roles))]
pub(crate) fn grant_roles<'a>(
    alloc: Global,
    tokens: &'a [Lexeme],
) -> Result<Found<'a, Lexeme, Statement>, Refusal<'a, Lexeme>>
    ensures { Gives (λ statement. statement) result (read (grammar_of grant_roles) tokens.now) }
{
    let roles = roles(alloc, tokens)?;
    let rest = expect(&Keyword("TO"), roles.rest)?;
    let accounts = accounts(alloc, rest)?;
    let option = with_admin_option(accounts.rest)?;
    Ok(Found {
        value: Statement::GrantRoles {
            roles: roles.value,
            accounts: accounts.value,
            with_admin_option: option.value,
        },
        rest: option.rest,
    })
}

/// REVOKE ALL, GRANT OPTION, or REVOKE of roles.
#[tactic(auto, unfolding(crate::specs::Statements::revoke))]
pub(crate) fn revoke<'a>(
    alloc: Global,
    tokens: &'a [Lexeme],
) -> Result<Found<'a, Lexeme, Statement>, Refusal<'a, Lexeme>>
    ensures { Gives (λ statement. statement) result (read (grammar_of revoke) tokens.now) }
{
    match expect(&Keyword("ALL"), tokens) {
        Ok(rest) => revoke_all(alloc, rest),
        Err(_) => revoke_roles(alloc, tokens),
    }
}

#[tactic(auto, unfolding(crate::specs::Statements::revoke_all, crate::specs::Statements::maybe_privileges))]
fn revoke_all<'a>(
    alloc: Global,
    tokens: &'a [Lexeme],
) -> Result<Found<'a, Lexeme, Statement>, Refusal<'a, Lexeme>>
    ensures { Gives (λ statement. statement) result (read (grammar_of revoke_all) tokens.now) }
{
    let rest = match expect(&Keyword("PRIVILEGES"), tokens) {
        Ok(rest) => rest,
        Err(_) => tokens,
    };
    let rest = expect(&Mark(b','), rest)?;
    let rest = expect(&Keyword("GRANT"), rest)?;
    let rest = expect(&Keyword("OPTION"), rest)?;
    let rest = expect(&Keyword("FROM"), rest)?;
    let accounts = accounts(alloc, rest)?;
    Ok(Found {
        value: Statement::RevokeAll {
            accounts: accounts.value,
        },
        rest: accounts.rest,
    })
}

#[tactic(auto, unfolding(crate::specs::Statements::revoke_roles))]
fn revoke_roles<'a>(
    alloc: Global,
    tokens: &'a [Lexeme],
) -> Result<Found<'a, Lexeme, Statement>, Refusal<'a, Lexeme>>
    ensures { Gives (λ statement. statement) result (read (grammar_of revoke_roles) tokens.now) }
{
    let roles = roles(alloc, tokens)?;
    let rest = expect(&Keyword("FROM"), roles.rest)?;
    let accounts = accounts(alloc, rest)?;
    Ok(Found {
        value: Statement::RevokeRoles {
            roles: roles.value,
            accounts: accounts.value,
        },
        rest: accounts.rest,
    })
}
