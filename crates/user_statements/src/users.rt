//! CREATE, ALTER, DROP and RENAME of accounts and roles, each behind its first word.

ghost use Rattle.std.specs.Prelude.{◌≡◌};
ghost use Rattle.acl_grammar.specs.Code.{Gives};
ghost use Rattle.acl_grammar.specs.Reader.{read};
ghost use Rattle.grant_words.specs.Syntax.{grammar_of};
ghost use Rattle.user_statements.specs.Statements.{alter_user, create, create_role, create_user, drop, drop_role, drop_user, rename_user};

use crate::flags::{if_exists, if_not_exists};
use crate::options::options;
use crate::parts::{AlteredAccount, NewAccount, Renaming};
use acl_grammar::{Found, Refusal, expect, list_of};
use acl_items::Items;
use acl_stmt::Statement;
use grant_words::{Keyword, Lexeme, Mark, accounts, roles};
use std::alloc::Global;

/// CREATE USER or CREATE ROLE.
#[tactic(auto, unfolding(crate::specs::Statements::create))]
pub(crate) fn create<'a>(
    alloc: Global,
    tokens: &'a [Lexeme],
) -> Result<Found<'a, Lexeme, Statement>, Refusal<'a, Lexeme>>
    ensures { Gives (λ statement. statement) result (read (grammar_of create) tokens.now) }
{
    if let Ok(rest) = expect(&Keyword("USER"), tokens) {
        return create_user(alloc, rest);
    }
    let rest = expect(&Keyword("ROLE"), tokens)?;
    create_role(alloc, rest)
}

#[tactic(auto, using(grant_words::proofs::Mapped::map_same), unfolding(crate::specs::Statements::create_user))]
fn create_user<'a>(
    alloc: Global,
    tokens: &'a [Lexeme],
) -> Result<Found<'a, Lexeme, Statement>, Refusal<'a, Lexeme>>
    ensures { Gives (λ statement. statement) result (read (grammar_of create_user) tokens.now) }
{
    let exists = if_not_exists(tokens)?;
    let accounts = list_of::<NewAccount, Lexeme, Mark>(alloc, &Mark(b','), exists.rest)?;
    let options = options(alloc, accounts.rest)?;
    Ok(Found {
        value: Statement::CreateUser {
            if_not_exists: exists.value,
            accounts: Items::from_vec(accounts.value),
            options: options.value,
        },
        rest: options.rest,
    })
}

#[tactic(auto, unfolding(crate::specs::Statements::create_role))]
fn create_role<'a>(
    alloc: Global,
    tokens: &'a [Lexeme],
) -> Result<Found<'a, Lexeme, Statement>, Refusal<'a, Lexeme>>
    ensures { Gives (λ statement. statement) result (read (grammar_of create_role) tokens.now) }
{
    let exists = if_not_exists(tokens)?;
    let roles = roles(alloc, exists.rest)?;
    Ok(Found {
        value: Statement::CreateRole {
            if_not_exists: exists.value,
            roles: roles.value,
        },
        rest: roles.rest,
    })
}

/// ALTER USER, behind both words.
#[tactic(auto, using(grant_words::proofs::Mapped::map_same), unfolding(crate::specs::Statements::alter_user))]
pub(crate) fn alter_user<'a>(
    alloc: Global,
    tokens: &'a [Lexeme],
) -> Result<Found<'a, Lexeme, Statement>, Refusal<'a, Lexeme>>
    ensures { Gives (λ statement. statement) result (read (grammar_of alter_user) tokens.now) }
{
    let accounts = list_of::<AlteredAccount, Lexeme, Mark>(alloc, &Mark(b','), tokens)?;
    let options = options(alloc, accounts.rest)?;
    Ok(Found {
        value: Statement::AlterUser {
            accounts: Items::from_vec(accounts.value),
            options: options.value,
        },
        rest: options.rest,
    })
}

/// DROP USER or DROP ROLE.
#[tactic(auto, unfolding(crate::specs::Statements::drop))]
pub(crate) fn drop<'a>(
    alloc: Global,
    tokens: &'a [Lexeme],
) -> Result<Found<'a, Lexeme, Statement>, Refusal<'a, Lexeme>>
    ensures { Gives (λ statement. statement) result (read (grammar_of drop) tokens.now) }
{
    if let Ok(rest) = expect(&Keyword("USER"), tokens) {
        return drop_user(alloc, rest);
    }
    let rest = expect(&Keyword("ROLE"), tokens)?;
    drop_role(alloc, rest)
}

#[tactic(auto, unfolding(crate::specs::Statements::drop_user))]
fn drop_user<'a>(
    alloc: Global,
    tokens: &'a [Lexeme],
) -> Result<Found<'a, Lexeme, Statement>, Refusal<'a, Lexeme>>
    ensures { Gives (λ statement. statement) result (read (grammar_of drop_user) tokens.now) }
{
    let exists = if_exists(tokens)?;
    let accounts = accounts(alloc, exists.rest)?;
    Ok(Found {
        value: Statement::DropUser {
            if_exists: exists.value,
            accounts: accounts.value,
        },
        rest: accounts.rest,
    })
}

#[tactic(auto, unfolding(crate::specs::Statements::drop_role))]
fn drop_role<'a>(
    alloc: Global,
    tokens: &'a [Lexeme],
) -> Result<Found<'a, Lexeme, Statement>, Refusal<'a, Lexeme>>
    ensures { Gives (λ statement. statement) result (read (grammar_of drop_role) tokens.now) }
{
    let exists = if_exists(tokens)?;
    let roles = roles(alloc, exists.rest)?;
    Ok(Found {
        value: Statement::DropRole {
            if_exists: exists.value,
            roles: roles.value,
        },
        rest: roles.rest,
    })
}

/// RENAME USER, behind both words.
#[tactic(auto, using(grant_words::proofs::Mapped::map_same), unfolding(crate::specs::Statements::rename_user))]
pub(crate) fn rename_user<'a>(
    alloc: Global,
    tokens: &'a [Lexeme],
) -> Result<Found<'a, Lexeme, Statement>, Refusal<'a, Lexeme>>
    ensures { Gives (λ statement. statement) result (read (grammar_of rename_user) tokens.now) }
{
    let pairs = list_of::<Renaming, Lexeme, Mark>(alloc, &Mark(b','), tokens)?;
    Ok(Found {
        value: Statement::RenameUser {
            pairs: Items::from_vec(pairs.value),
        },
        rest: pairs.rest,
    })
}
