ghost use Rattle.std.specs.Prelude.{◌≡◌, IfErr, IfOk, IsTrue, OnOk};
ghost use Rattle.acl_model.specs.Acceptance.{IsAccepted, IsFeasible, IsRefused};
ghost use Rattle.acl_model.specs.Effects.{after};
ghost use Rattle.acl_rows.specs.Tables.{state_of};
ghost use Rattle.acl_apply.specs.Applied.{IsPreparedOn, applied};
ghost use Rattle.acl_apply.specs.Built.{is_built};
ghost use Rattle.acl_apply.specs.Causes.{IsCause};

use crate::create::create_users;
use crate::drops::drop_users;
use crate::grant::grant_privileges;
use crate::limits::within_limits;
use crate::rename::rename_users;
use crate::revoke::{revoke_all, revoke_privileges};
use acl_rows::Rows;
use acl_stmt::{Entry, Refusal, Statement};
use grant_effects::GrantParts;
use std::alloc::Global;

/// A statement that was tried and may be carried out.
#[derive(Drop)]
pub struct Change {
    rows: Rows,
}

/// Tries a statement, and changes no row.
pub fn prepare(alloc: Global, rows: &mut Rows, entry: &Entry) -> Result<Change, Refusal>
    requires { IsTrue (is_built entry.now.statement) }
    ensures kept { rows.new ≡ rows.old }
    ensures accepted { OnOk result (IsAccepted (state_of rows.old) entry.now) }
    ensures change { IfOk result (λ change.
        state_of (applied change rows.old) ≡ after entry.now (state_of rows.old)) }
    ensures prepared { IfOk result (λ change. IsPreparedOn change rows.new) }
    ensures err { IfErr result (IsCause (IsRefused (state_of rows.old) entry.now)) }
{
    let changed = rows_after(alloc, rows, entry)?;
    within_limits(alloc, &changed)?;
    Ok(Change { rows: changed })
}

/// Carries out the change, which needs to be the one that was prepared last on these rows. It takes no memory.
pub fn commit(rows: &mut Rows, change: Change)
    requires prepared { IsPreparedOn change rows.old }
    ensures { rows.new ≡ applied change rows.old }
{
    let Change { rows: changed } = change;
    *rows = changed;
}

// The rows as the statement leaves them, whatever the limits.
fn rows_after(alloc: Global, before: &Rows, entry: &Entry) -> Result<Rows, Refusal>
    requires { IsTrue (is_built entry.now.statement) }
    ensures feasible { OnOk result (IsFeasible (state_of before.now) entry.now.statement) }
    ensures changed { IfOk result (λ rows. state_of rows ≡ after entry.now (state_of before.now)) }
    ensures err { IfErr result (IsCause (IsRefused (state_of before.now) entry.now)) }
{
    match &entry.statement {
        Statement::CreateUser {
            if_not_exists,
            accounts,
            options,
        } => create_users(alloc, before, *if_not_exists, accounts.as_slice(), options),
        Statement::DropUser {
            if_exists,
            accounts,
        } => drop_users(alloc, before, *if_exists, accounts.as_slice()),
        Statement::RenameUser { pairs } => rename_users(alloc, before, pairs.as_slice()),
        Statement::Grant {
            privileges,
            target,
            accounts,
            with_grant_option,
        } => {
            let grant = GrantParts {
                privileges,
                target,
                accounts: accounts.as_slice(),
                with_grant_option: *with_grant_option,
            };
            grant_privileges(alloc, before, entry.limits.as_slice(), &grant)
        }
        Statement::Revoke {
            privileges,
            target,
            accounts,
        } => revoke_privileges(alloc, before, privileges, target, accounts.as_slice()),
        Statement::RevokeAll { accounts } => revoke_all(alloc, before, accounts.as_slice()),
        _ => unreachable!(),
    }
}
