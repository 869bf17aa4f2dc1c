//! What is spelled, once its privileges have the level of their target.

ghost use Rattle.std.specs.Prelude.{◌≡◌, ◌<◌, ◌^◌, None, IfErr, IfOk, IsTrue, OnOk};
ghost use mathlib.Core.Logic.{inr};
ghost use Rattle.acl_stmt.specs.Lists.{is_some_list};
ghost use Rattle.acl_stmt.specs.Statements.{is_statement};
ghost use Rattle.grant_parse.specs.Meaning.{IsLevelFault, MeansRequest, MeansStatement, accounts_of, level_fault, refusal_from, request_fault};
ghost use Rattle.priv_items.specs.LevelRefusals.{wrong_level};
ghost use Rattle.priv_items.specs.Naming.{column_count, items_in};
ghost use Rattle.privilege_statements.specs.Columns.{privileges_of};
ghost use Rattle.privilege_statements.specs.declared.statement.RawStatement.TheVariants.{Grant, Revoke};

use acl_items::Items;
use acl_names::AuthId;
use acl_stmt::{Request, Statement, Target};
use grant_refusal::ParseRefusal;
use priv_items::{LevelRefusal, Named, granted_of, request_of};
use privilege_statements::RawStatement;
use std::alloc::Global;

fn level_refusal(refusal: LevelRefusal) -> ParseRefusal
    ensures { result ≡ refusal_from refusal }
{
    match refusal {
        LevelRefusal::WrongLevel { privilege } => ParseRefusal::WrongLevel { privilege },
        LevelRefusal::NoMemory => ParseRefusal::NoMemory,
    }
}

/// The request of these privileges on this target.
pub fn request_from(alloc: Global, named: &Named, target: Target) -> Result<Request, ParseRefusal>
    requires { column_count (items_in named.now) < 2 ^ 32 }
    ensures means { IfOk result (MeansRequest (named.now, target)) }
    ensures within { OnOk result (request_fault (named.now, target) ≡ None) }
    ensures err { IfErr result (IsLevelFault (request_fault (named.now, target))) }
{
    match request_of(alloc, named, target) {
        Ok(request) => Ok(request),
        Err(refusal) => Err(level_refusal(refusal)),
    }
}

/// The statement that is spelled so.
///
/// MySQL 8.0 Reference Manual, "GRANT Statement" and "REVOKE Statement".
pub fn statement_from(alloc: Global, raw: RawStatement) -> Result<Statement, ParseRefusal>
    requires { column_count (items_in (privileges_of raw)) < 2 ^ 32 }
    ensures means { IfOk result (MeansStatement (inr raw)) }
    ensures kept { IsTrue (is_some_list (accounts_of raw)) → IfOk result (λ statement. IsTrue (is_statement statement)) }
    ensures within { OnOk result (level_fault (inr raw) ≡ None) }
    ensures err { IfErr result (IsLevelFault (level_fault (inr raw))) }
{
    match raw {
        RawStatement::Grant {
            privileges,
            target,
            accounts,
            with_grant_option,
        } => grant_from(alloc, &privileges, target, accounts, with_grant_option),
        RawStatement::Revoke {
            privileges,
            target,
            accounts,
        } => revoke_from(alloc, &privileges, target, accounts),
    }
}

#[tactic(auto, unfolding(acl_stmt::specs::Statements::is_statement))]
fn grant_from(
    alloc: Global,
    privileges: &Named,
    target: Target,
    accounts: Items<AuthId>,
    with_grant_option: bool,
) -> Result<Statement, ParseRefusal>
    requires { column_count (items_in privileges.now) < 2 ^ 32 }
    ensures means { IfOk result (MeansStatement (inr (Grant privileges.now target accounts with_grant_option))) }
    ensures kept { IsTrue (is_some_list accounts) → IfOk result (λ statement. IsTrue (is_statement statement)) }
    ensures within { OnOk result (wrong_level privileges.now target ≡ None) }
    ensures err { IfErr result (IsLevelFault (wrong_level privileges.now target)) }
{
    match granted_of(alloc, privileges, target, with_grant_option) {
        Ok(granted) => Ok(Statement::Grant {
            privileges: granted.privileges,
            target: granted.target,
            accounts,
            with_grant_option: granted.with_grant_option,
        }),
        Err(refusal) => Err(level_refusal(refusal)),
    }
}

#[tactic(auto, unfolding(acl_stmt::specs::Statements::is_statement))]
fn revoke_from(
    alloc: Global,
    privileges: &Named,
    target: Target,
    accounts: Items<AuthId>,
) -> Result<Statement, ParseRefusal>
    requires { column_count (items_in privileges.now) < 2 ^ 32 }
    ensures means { IfOk result (MeansStatement (inr (Revoke privileges.now target accounts))) }
    ensures kept { IsTrue (is_some_list accounts) → IfOk result (λ statement. IsTrue (is_statement statement)) }
    ensures within { OnOk result (wrong_level privileges.now target ≡ None) }
    ensures err { IfErr result (IsLevelFault (wrong_level privileges.now target)) }
{
    match request_of(alloc, privileges, target) {
        Ok(request) => Ok(Statement::Revoke {
            privileges: request.privileges,
            target: request.target,
            accounts,
        }),
        Err(refusal) => Err(level_refusal(refusal)),
    }
}
