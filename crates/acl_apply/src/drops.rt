//! DROP USER.
ghost use Rattle.std.specs.Prelude.{◌≡◌, ◌&&◌, [], None, IfErr, IfOk, OnOk};
ghost use Rattle.std.specs.List.{find};
ghost use Rattle.std.specs.Option.{option_copied, option_map};
ghost use Rattle.acl_model.specs.Effects.{changed};
ghost use Rattle.acl_model.specs.Refusals.{first_fault};
ghost use Rattle.acl_model.specs.State.{is_mandatory, stands};
ghost use Rattle.acl_rows.specs.Tables.{state_of};
ghost use Rattle.acl_stmt.specs.declared.refusal.Refusal.TheVariants.{Mandatory};
ghost use Rattle.acl_stmt.specs.declared.statement.Statement.TheVariants.{DropUser};
ghost use Rattle.acl_apply.specs.Causes.{IsWantOrFault};

use crate::accounts::{is_mandatory, is_standing, none_gone};
use crate::lists::rows_without;
use acl_names::AuthId;
use acl_rows::{Rows, rows_naming_any};
use acl_stmt::Refusal;
use std::alloc::Global;

/// The rows after DROP USER.
pub(crate) fn drop_users(
    alloc: Global,
    before: &Rows,
    if_exists: bool,
    accounts: &[AuthId],
) -> Result<Rows, Refusal>
    ensures fault { OnOk result (first_fault (state_of before.now) (DropUser if_exists accounts.now) ≡ None) }
    ensures changed { IfOk result (λ rows.
        state_of rows ≡ changed [] (DropUser if_exists accounts.now) (state_of before.now)) }
    ensures err { IfErr result (IsWantOrFault (first_fault (state_of before.now) (DropUser if_exists accounts.now))) }
{
    may_drop(alloc, before, if_exists, accounts)?;
    let Ok(gone) = rows_naming_any(alloc, before, accounts) else {
        return Err(Refusal::NoMemory);
    };
    rows_without(alloc, before, &gone)
}

fn may_drop(
    alloc: Global,
    before: &Rows,
    if_exists: bool,
    accounts: &[AuthId],
) -> Result<(), Refusal>
    ensures ok { OnOk result (first_fault (state_of before.now) (DropUser if_exists accounts.now) ≡ None) }
    ensures err { IfErr result (IsWantOrFault (first_fault (state_of before.now) (DropUser if_exists accounts.now))) }
{
    if if_exists {
        return none_mandatory(alloc, before, accounts);
    }
    none_gone(alloc, before, accounts)?;
    none_mandatory(alloc, before, accounts)
}

fn is_kept(rows: &Rows, account: &AuthId) -> bool
    ensures { result ≡ (stands (state_of rows.now) account.now && is_mandatory (state_of rows.now) account.now) }
{
    is_standing(rows, account) && is_mandatory(rows, account)
}

// The first account that stands and is a mandatory role.
fn first_kept<'a>(rows: &Rows, accounts: &'a [AuthId]) -> Option<&'a AuthId>
    ensures { option_copied result ≡ find (λ a. stands (state_of rows.now) a && is_mandatory (state_of rows.now) a) accounts.now }
{
    accounts.iter().find(|account| is_kept(rows, account))
}

fn none_mandatory(alloc: Global, rows: &Rows, accounts: &[AuthId]) -> Result<(), Refusal>
    ensures ok { OnOk result (option_map (λ a. Mandatory a)
        (find (λ a. stands (state_of rows.now) a && is_mandatory (state_of rows.now) a) accounts.now) ≡ None) }
    ensures err { IfErr result (IsWantOrFault (option_map (λ a. Mandatory a)
        (find (λ a. stands (state_of rows.now) a && is_mandatory (state_of rows.now) a) accounts.now))) }
{
    let Some(role) = first_kept(rows, accounts) else {
        return Ok(());
    };
    match role.copy(alloc) {
        Ok(role) => Err(Refusal::Mandatory { role }),
        Err(_) => Err(Refusal::NoMemory),
    }
}
