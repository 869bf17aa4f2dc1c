//! SET ROLE and SHOW GRANTS, each behind its words.

ghost use Rattle.std.specs.Prelude.{◌≡◌};
ghost use Rattle.acl_grammar.specs.Code.{Gives};
ghost use Rattle.acl_grammar.specs.Reader.{read};
ghost use Rattle.grant_words.specs.Syntax.{grammar_of};
ghost use Rattle.script_commands.specs.Commands.{all_roles, grants_of, role_form, using_roles};

use crate::RawCommand;
use acl_grammar::{Found, Refusal, Rule, expect};
use acl_items::Items;
use acl_names::AuthId;
use acl_stmt::RoleForm;
use grant_words::{Account, Keyword, Lexeme, roles};
use std::alloc::Global;

#[tactic(auto, unfolding(crate::specs::Commands::role_form))]
pub(crate) fn role_form<'a>(
    alloc: Global,
    tokens: &'a [Lexeme],
) -> Result<Found<'a, Lexeme, RoleForm>, Refusal<'a, Lexeme>>
    ensures { Gives (λ value. value) result (read (grammar_of role_form) tokens.now) }
{
    if let Ok(rest) = expect(&Keyword("DEFAULT"), tokens) {
        return Ok(Found {
            value: RoleForm::Default,
            rest,
        });
    }
    if let Ok(rest) = expect(&Keyword("NONE"), tokens) {
        return Ok(Found {
            value: RoleForm::Nothing,
            rest,
        });
    }
    if let Ok(rest) = expect(&Keyword("ALL"), tokens) {
        return all_roles(alloc, rest);
    }
    let roles = roles(alloc, tokens)?;
    Ok(Found {
        value: RoleForm::List(roles.value),
        rest: roles.rest,
    })
}

#[tactic(auto, unfolding(crate::specs::Commands::all_roles))]
fn all_roles<'a>(
    alloc: Global,
    tokens: &'a [Lexeme],
) -> Result<Found<'a, Lexeme, RoleForm>, Refusal<'a, Lexeme>>
    ensures { Gives (λ value. value) result (read (grammar_of all_roles) tokens.now) }
{
    let Ok(rest) = expect(&Keyword("EXCEPT"), tokens) else {
        return Ok(Found {
            value: RoleForm::All,
            rest: tokens,
        });
    };
    let roles = roles(alloc, rest)?;
    Ok(Found {
        value: RoleForm::AllExcept(roles.value),
        rest: roles.rest,
    })
}

#[tactic(auto, unfolding(crate::specs::Commands::grants_of))]
pub(crate) fn grants_of<'a>(
    alloc: Global,
    tokens: &'a [Lexeme],
) -> Result<Found<'a, Lexeme, RawCommand>, Refusal<'a, Lexeme>>
    ensures { Gives (λ value. value) result (read (grammar_of grants_of) tokens.now) }
{
    let Ok(rest) = expect(&Keyword("FOR"), tokens) else {
        return Ok(Found {
            value: RawCommand::ShowGrants {
                account: None,
                roles: Items::from_vec(Vec::new(alloc)),
            },
            rest: tokens,
        });
    };
    let account = Account::read(alloc, rest)?;
    let roles = using_roles(alloc, account.rest)?;
    Ok(Found {
        value: RawCommand::ShowGrants {
            account: Some(account.value),
            roles: roles.value,
        },
        rest: roles.rest,
    })
}

#[tactic(auto, unfolding(crate::specs::Commands::using_roles))]
fn using_roles<'a>(
    alloc: Global,
    tokens: &'a [Lexeme],
) -> Result<Found<'a, Lexeme, Items<AuthId>>, Refusal<'a, Lexeme>>
    ensures { Gives (λ value. value) result (read (grammar_of using_roles) tokens.now) }
{
    match expect(&Keyword("USING"), tokens) {
        Ok(rest) => roles(alloc, rest),
        Err(_) => Ok(Found {
            value: Items::from_vec(Vec::new(alloc)),
            rest: tokens,
        }),
    }
}
