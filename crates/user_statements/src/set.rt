//! SET, behind its word.

ghost use Rattle.std.specs.Prelude.{◌≡◌, List, IfOk};
ghost use Rattle.acl_grammar.specs.Code.{Gives};
ghost use Rattle.acl_grammar.specs.Reader.{read};
ghost use Rattle.acl_names.specs.declared.auth.AuthId.{AuthId};
ghost use Rattle.grant_words.specs.Classes.{is};
ghost use Rattle.grant_words.specs.Syntax.{grammar_of};
ghost use Rattle.mandatory_roles.specs.Roles.{roles_in};
ghost use Rattle.user_statements.specs.Sanity.{roles_sample};
ghost use Rattle.user_statements.specs.Statements.{default_form, for_account, on_or_off, roles_class, roles_of, set, set_activate_all, set_default_role, set_mandatory, set_password, set_persist};

use crate::secret::secret;
use acl_grammar::{Found, Refusal, Rule, TokenClass, expect, token_of};
use acl_items::Items;
use acl_names::AuthId;
use acl_stmt::{DefaultForm, Statement};
use grant_lex::Kind;
use grant_words::{Account, Keyword, Lexeme, Mark, accounts, roles};
use mandatory_roles::read_roles;
use std::alloc::{AllocError, Global};

#[tactic(auto, unfolding(crate::specs::Statements::set))]
pub(crate) fn set<'a>(
    alloc: Global,
    tokens: &'a [Lexeme],
) -> Result<Found<'a, Lexeme, Statement>, Refusal<'a, Lexeme>>
    ensures { Gives (λ statement. statement) result (read (grammar_of set) tokens.now) }
{
    if let Ok(rest) = expect(&Keyword("DEFAULT"), tokens) {
        let rest = expect(&Keyword("ROLE"), rest)?;
        return set_default_role(alloc, rest);
    }
    if let Ok(rest) = expect(&Keyword("PASSWORD"), tokens) {
        return set_password(alloc, rest);
    }
    let rest = expect(&Keyword("PERSIST"), tokens)?;
    set_persist(alloc, rest)
}

#[tactic(auto, unfolding(crate::specs::Statements::set_default_role))]
fn set_default_role<'a>(
    alloc: Global,
    tokens: &'a [Lexeme],
) -> Result<Found<'a, Lexeme, Statement>, Refusal<'a, Lexeme>>
    ensures { Gives (λ statement. statement) result (read (grammar_of set_default_role) tokens.now) }
{
    let form = default_form(alloc, tokens)?;
    let rest = expect(&Keyword("TO"), form.rest)?;
    let accounts = accounts(alloc, rest)?;
    Ok(Found {
        value: Statement::SetDefaultRole {
            form: form.value,
            accounts: accounts.value,
        },
        rest: accounts.rest,
    })
}

#[tactic(auto, unfolding(crate::specs::Statements::default_form))]
fn default_form<'a>(
    alloc: Global,
    tokens: &'a [Lexeme],
) -> Result<Found<'a, Lexeme, DefaultForm>, Refusal<'a, Lexeme>>
    ensures { Gives (λ form. form) result (read (grammar_of default_form) tokens.now) }
{
    if let Ok(rest) = expect(&Keyword("NONE"), tokens) {
        return Ok(Found {
            value: DefaultForm::Nothing,
            rest,
        });
    }
    if let Ok(rest) = expect(&Keyword("ALL"), tokens) {
        return Ok(Found {
            value: DefaultForm::All,
            rest,
        });
    }
    let roles = roles(alloc, tokens)?;
    Ok(Found {
        value: DefaultForm::List(roles.value),
        rest: roles.rest,
    })
}

#[tactic(auto, unfolding(crate::specs::Statements::set_password))]
fn set_password<'a>(
    alloc: Global,
    tokens: &'a [Lexeme],
) -> Result<Found<'a, Lexeme, Statement>, Refusal<'a, Lexeme>>
    ensures { Gives (λ statement. statement) result (read (grammar_of set_password) tokens.now) }
{
    let account = for_account(alloc, tokens)?;
    let rest = expect(&Mark(b'='), account.rest)?;
    let secret = secret(alloc, rest)?;
    Ok(Found {
        value: Statement::SetPassword {
            account: account.value,
            verifier: secret.value,
        },
        rest: secret.rest,
    })
}

#[tactic(auto, unfolding(crate::specs::Statements::for_account))]
fn for_account<'a>(
    alloc: Global,
    tokens: &'a [Lexeme],
) -> Result<Found<'a, Lexeme, Option<AuthId>>, Refusal<'a, Lexeme>>
    ensures { Gives (λ account. account) result (read (grammar_of for_account) tokens.now) }
{
    let Ok(rest) = expect(&Keyword("FOR"), tokens) else {
        return Ok(Found {
            value: None,
            rest: tokens,
        });
    };
    let account = Account::read(alloc, rest)?;
    Ok(Found {
        value: Some(account.value),
        rest: account.rest,
    })
}

#[tactic(auto, unfolding(crate::specs::Statements::set_persist))]
fn set_persist<'a>(
    alloc: Global,
    tokens: &'a [Lexeme],
) -> Result<Found<'a, Lexeme, Statement>, Refusal<'a, Lexeme>>
    ensures { Gives (λ statement. statement) result (read (grammar_of set_persist) tokens.now) }
{
    if let Ok(rest) = expect(&Keyword("MANDATORY_ROLES"), tokens) {
        return set_mandatory(alloc, rest);
    }
    let rest = expect(&Keyword("ACTIVATE_ALL_ROLES_ON_LOGIN"), tokens)?;
    set_activate_all(rest)
}

#[tactic(auto, unfolding(crate::specs::Statements::set_activate_all))]
fn set_activate_all<'a>(
    tokens: &'a [Lexeme],
) -> Result<Found<'a, Lexeme, Statement>, Refusal<'a, Lexeme>>
    ensures { Gives (λ statement. statement) result (read (grammar_of set_activate_all) tokens.now) }
{
    let rest = expect(&Mark(b'='), tokens)?;
    let on = on_or_off(rest)?;
    Ok(Found {
        value: Statement::SetActivateAll { on: on.value },
        rest: on.rest,
    })
}

#[tactic(auto, unfolding(crate::specs::Statements::on_or_off))]
fn on_or_off<'a>(tokens: &'a [Lexeme]) -> Result<Found<'a, Lexeme, bool>, Refusal<'a, Lexeme>>
    ensures { Gives (λ on. on) result (read (grammar_of on_or_off) tokens.now) }
{
    if let Ok(rest) = expect(&Keyword("ON"), tokens) {
        return Ok(Found { value: true, rest });
    }
    let rest = expect(&Keyword("OFF"), tokens)?;
    Ok(Found { value: false, rest })
}

/// A list of roles, as the text of a string.
struct RoleList;

impl TokenClass<Lexeme> for RoleList {
    type Value = Items<AuthId>;

    ghost Meaning = { List AuthId };

    ghost view = { λ value. value };

    ghost is = { is roles_class };

    ghost value = { λ token. roles_of token.value };

    #[tactic(auto, unfolding(grant_words::specs::Classes::is))]
    fn value_of(alloc: Global, token: &Lexeme) -> Result<Option<Items<AuthId>>, AllocError> {
        if token.kind == Kind::Quoted {
            roles_in(alloc, token.value.as_str())
        } else {
            Ok(None)
        }
    }

    ghost sample = { roles_sample };
}

fn roles_in(alloc: Global, text: &str) -> Result<Option<Items<AuthId>>, AllocError>
    ensures { IfOk result (λ roles. roles ≡ roles_in text.now) }
{
    read_roles(alloc, text)
}

#[tactic(auto, unfolding(crate::specs::Statements::set_mandatory))]
fn set_mandatory<'a>(
    alloc: Global,
    tokens: &'a [Lexeme],
) -> Result<Found<'a, Lexeme, Statement>, Refusal<'a, Lexeme>>
    ensures { Gives (λ statement. statement) result (read (grammar_of set_mandatory) tokens.now) }
{
    let rest = expect(&Mark(b'='), tokens)?;
    let roles = token_of::<RoleList, Lexeme>(alloc, rest)?;
    Ok(Found {
        value: Statement::SetMandatory { roles: roles.value },
        rest: roles.rest,
    })
}
