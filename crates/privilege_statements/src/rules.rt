//! Statements and requests.

ghost use Rattle.std.specs.Prelude.{◌≡◌};
ghost use Rattle.acl_grammar.specs.Code.{Gives};
ghost use Rattle.acl_grammar.specs.Reader.{read};
ghost use Rattle.acl_stmt.specs.declared.target.Target.{Target};
ghost use Rattle.grant_words.specs.Syntax.{grammar_of};
ghost use Rattle.priv_items.specs.declared.item.Named.{Named};
ghost use Rattle.privilege_statements.specs.Sanity.{privilege_statement_sane, request_sane};
ghost use Rattle.privilege_statements.specs.Statements.{grant, privilege_statement, privileges_on_target, request, revoke, with_grant_option};
ghost use Rattle.privilege_statements.specs.declared.statement.RawStatement.{RawStatement};

use crate::RawStatement;
use crate::items::privileges;
use crate::targets::{request_target, target};
use acl_grammar::{Found, Refusal, Rule, expect};
use acl_stmt::Target;
use grant_words::{Keyword, Lexeme, accounts};
use priv_items::Named;
use std::alloc::Global;

/// A GRANT or a REVOKE of privileges, without a semicolon.
///
/// MySQL 8.0 Reference Manual, "GRANT Statement" and "REVOKE Statement".
pub struct PrivilegeStatement;

impl Rule<Lexeme> for PrivilegeStatement {
    type Value = RawStatement;

    ghost Meaning = { RawStatement };

    ghost view = { λ value. value };

    ghost grammar = { grammar_of privilege_statement };

    #[tactic(auto, unfolding(crate::specs::Statements::privilege_statement))]
    fn read<'a>(
        alloc: Global,
        tokens: &'a [Lexeme],
    ) -> Result<Found<'a, Lexeme, RawStatement>, Refusal<'a, Lexeme>> {
        if let Ok(rest) = expect(&Keyword("GRANT"), tokens) {
            return grant(alloc, rest);
        }
        let rest = expect(&Keyword("REVOKE"), tokens)?;
        revoke(alloc, rest)
    }

    ghost sane = { privilege_statement_sane };
}

/// Privileges on a target, in which the name of a schema has no escapes.
///
/// MySQL 8.0 Reference Manual, "Access Control, Stage 2: Request Verification".
pub struct RequestRule;

impl Rule<Lexeme> for RequestRule {
    type Value = (Named, Target);

    ghost Meaning = { Named × Target };

    ghost view = { λ value. value };

    ghost grammar = { grammar_of request };

    #[tactic(auto, unfolding(crate::specs::Statements::request))]
    fn read<'a>(
        alloc: Global,
        tokens: &'a [Lexeme],
    ) -> Result<Found<'a, Lexeme, (Named, Target)>, Refusal<'a, Lexeme>> {
        let privileges = privileges(alloc, tokens)?;
        let rest = expect(&Keyword("ON"), privileges.rest)?;
        let target = request_target(alloc, rest)?;
        Ok(Found {
            value: (privileges.value, target.value),
            rest: target.rest,
        })
    }

    ghost sane = { request_sane };
}

#[tactic(auto, unfolding(crate::specs::Statements::privileges_on_target))]
fn privileges_on_target<'a>(
    alloc: Global,
    tokens: &'a [Lexeme],
) -> Result<Found<'a, Lexeme, (Named, Target)>, Refusal<'a, Lexeme>>
    ensures { Gives (λ value. value) result (read (grammar_of privileges_on_target) tokens.now) }
{
    let privileges = privileges(alloc, tokens)?;
    let rest = expect(&Keyword("ON"), privileges.rest)?;
    let target = target(alloc, rest)?;
    Ok(Found {
        value: (privileges.value, target.value),
        rest: target.rest,
    })
}

#[tactic(auto, unfolding(crate::specs::Statements::grant))]
fn grant<'a>(
    alloc: Global,
    tokens: &'a [Lexeme],
) -> Result<Found<'a, Lexeme, RawStatement>, Refusal<'a, Lexeme>>
    ensures { Gives (λ value. value) result (read (grammar_of grant) tokens.now) }
{
    let what = privileges_on_target(alloc, tokens)?;
    let rest = expect(&Keyword("TO"), what.rest)?;
    let accounts = accounts(alloc, rest)?;
    let option = with_grant_option(accounts.rest)?;
    let (privileges, target) = what.value;
    Ok(Found {
        value: RawStatement::Grant {
            privileges,
            target,
            accounts: accounts.value,
            with_grant_option: option.value,
        },
        rest: option.rest,
    })
}

#[tactic(auto, unfolding(crate::specs::Statements::with_grant_option))]
fn with_grant_option<'a>(
    tokens: &'a [Lexeme],
) -> Result<Found<'a, Lexeme, bool>, Refusal<'a, Lexeme>>
    ensures { Gives (λ value. value) result (read (grammar_of with_grant_option) tokens.now) }
{
    let Ok(rest) = expect(&Keyword("WITH"), tokens) else {
        return Ok(Found {
            value: false,
            rest: tokens,
        });
    };
    let rest = expect(&Keyword("GRANT"), rest)?;
    let rest = expect(&Keyword("OPTION"), rest)?;
    Ok(Found { value: true, rest })
}

#[tactic(auto, unfolding(crate::specs::Statements::revoke))]
fn revoke<'a>(
    alloc: Global,
    tokens: &'a [Lexeme],
) -> Result<Found<'a, Lexeme, RawStatement>, Refusal<'a, Lexeme>>
    ensures { Gives (λ value. value) result (read (grammar_of revoke) tokens.now) }
{
    let what = privileges_on_target(alloc, tokens)?;
    let rest = expect(&Keyword("FROM"), what.rest)?;
    let accounts = accounts(alloc, rest)?;
    let (privileges, target) = what.value;
    Ok(Found {
        value: RawStatement::Revoke {
            privileges,
            target,
            accounts: accounts.value,
        },
        rest: accounts.rest,
    })
}
