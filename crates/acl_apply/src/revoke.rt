//! REVOKE of privileges.
ghost use Rattle.std.specs.Prelude.{◌≡◌, [], None, IfErr, IfOk, IsTrue, OnOk};
ghost use Rattle.acl_model.specs.Effects.{changed};
ghost use Rattle.acl_model.specs.Refusals.{first_fault, no_account};
ghost use Rattle.acl_rows.specs.Tables.{state_of};
ghost use Rattle.acl_stmt.specs.Statements.{is_statement};
ghost use Rattle.acl_stmt.specs.declared.statement.Statement.TheVariants.{Revoke, RevokeAll};
ghost use Rattle.revoke_effects.specs.Found.{IsGrantFault};
ghost use Rattle.acl_apply.specs.Causes.{IsWantOrFault};
ghost use Rattle.acl_apply.specs.Revoked.{IsRevokeCause};

use crate::accounts::all_stand;
use crate::lists::{rows_with, rows_without};
use acl_names::AuthId;
use acl_rows::Rows;
use acl_stmt::{PrivList, Refusal, Target};
use revoke_effects::{all_rows_taken, first_without_grant, rows_given, rows_taken};
use std::alloc::Global;

/// The rows after REVOKE of privileges.
pub(crate) fn revoke_privileges(
    alloc: Global,
    before: &Rows,
    privileges: &PrivList,
    target: &Target,
    accounts: &[AuthId],
) -> Result<Rows, Refusal>
    requires { IsTrue (is_statement (Revoke privileges.now target.now accounts.now)) }
    ensures found { OnOk result (IsGrantFault (state_of before.now) privileges.now target.now accounts.now None) }
    ensures changed { IfOk result (λ rows. state_of rows
        ≡ changed [] (Revoke privileges.now target.now accounts.now) (state_of before.now)) }
    ensures err { IfErr result (IsRevokeCause (state_of before.now) privileges.now target.now accounts.now) }
{
    may_revoke(alloc, before, privileges, target, accounts)?;
    let Ok(gone) = rows_taken(alloc, before, privileges, target, accounts) else {
        return Err(Refusal::NoMemory);
    };
    let Ok(come) = rows_given(alloc, before, privileges, target, accounts) else {
        return Err(Refusal::NoMemory);
    };
    let rows = rows_without(alloc, before, &gone)?;
    rows_with(alloc, rows, &come)
}

fn may_revoke(
    alloc: Global,
    before: &Rows,
    privileges: &PrivList,
    target: &Target,
    accounts: &[AuthId],
) -> Result<(), Refusal>
    ensures ok { OnOk result (IsGrantFault (state_of before.now) privileges.now target.now accounts.now None) }
    ensures err { IfErr result (IsRevokeCause (state_of before.now) privileges.now target.now accounts.now) }
{
    all_stand(alloc, before, accounts)?;
    all_hold(alloc, before, privileges, target, accounts)
}

// Refuses a list with an account of which REVOKE finds nothing.
fn all_hold(
    alloc: Global,
    before: &Rows,
    privileges: &PrivList,
    target: &Target,
    accounts: &[AuthId],
) -> Result<(), Refusal>
    requires { no_account (state_of before.now) accounts.now ≡ None }
    ensures ok { OnOk result (IsGrantFault (state_of before.now) privileges.now target.now accounts.now None) }
    ensures err { IfErr result (IsRevokeCause (state_of before.now) privileges.now target.now accounts.now) }
{
    let Ok(found) = first_without_grant(alloc, before, privileges, target, accounts) else {
        return Err(Refusal::NoMemory);
    };
    let Some(account) = found else {
        return Ok(());
    };
    match account.copy(alloc) {
        Ok(account) => Err(Refusal::NoSuchGrant { account }),
        Err(_) => Err(Refusal::NoMemory),
    }
}

/// The rows after REVOKE ALL PRIVILEGES, GRANT OPTION.
pub(crate) fn revoke_all(alloc: Global, before: &Rows, accounts: &[AuthId]) -> Result<Rows, Refusal>
    ensures fault { OnOk result (first_fault (state_of before.now) (RevokeAll accounts.now) ≡ None) }
    ensures changed { IfOk result (λ rows.
        state_of rows ≡ changed [] (RevokeAll accounts.now) (state_of before.now)) }
    ensures err { IfErr result (IsWantOrFault (first_fault (state_of before.now) (RevokeAll accounts.now))) }
{
    all_stand(alloc, before, accounts)?;
    let Ok(gone) = all_rows_taken(alloc, before, accounts) else {
        return Err(Refusal::NoMemory);
    };
    rows_without(alloc, before, &gone)
}
