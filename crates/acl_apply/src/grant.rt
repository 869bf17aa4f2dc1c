//! GRANT of privileges.
ghost use Rattle.std.specs.Prelude.{◌≡◌, None, IfErr, IfOk, IsTrue, OnOk};
ghost use Rattle.acl_model.specs.Effects.{changed};
ghost use Rattle.acl_model.specs.Refusals.{first_fault};
ghost use Rattle.acl_rows.specs.Tables.{state_of};
ghost use Rattle.acl_stmt.specs.Entries.{is_entry};
ghost use Rattle.acl_stmt.specs.declared.statement.Statement.TheVariants.{Grant};
ghost use Rattle.acl_apply.specs.Causes.{IsWantOrFault};

use crate::accounts::all_stand;
use crate::lists::{rows_with, rows_without};
use acl_rows::Rows;
use acl_stmt::{Limit, Refusal};
use grant_effects::{GrantParts, rows_given, rows_taken};
use std::alloc::Global;

/// The rows after GRANT of privileges, which on `*.*` hands on these limits.
pub(crate) fn grant_privileges(
    alloc: Global,
    before: &Rows,
    limits: &[Limit],
    grant: &GrantParts,
) -> Result<Rows, Refusal>
    requires { IsTrue (is_entry limits.now
        (Grant grant.now.privileges.now grant.now.target.now grant.now.accounts.now grant.now.with_grant_option)) }
    ensures fault { OnOk result (first_fault (state_of before.now)
        (Grant grant.now.privileges.now grant.now.target.now grant.now.accounts.now grant.now.with_grant_option) ≡ None) }
    ensures changed { IfOk result (λ rows. state_of rows ≡ changed limits.now
        (Grant grant.now.privileges.now grant.now.target.now grant.now.accounts.now grant.now.with_grant_option) (state_of before.now)) }
    ensures err { IfErr result (IsWantOrFault (first_fault (state_of before.now)
        (Grant grant.now.privileges.now grant.now.target.now grant.now.accounts.now grant.now.with_grant_option))) }
{
    all_stand(alloc, before, grant.accounts)?;
    let Ok(gone) = rows_taken(alloc, before, limits, grant) else {
        return Err(Refusal::NoMemory);
    };
    let Ok(come) = rows_given(alloc, before, limits, grant) else {
        return Err(Refusal::NoMemory);
    };
    let rows = rows_without(alloc, before, &gone)?;
    rows_with(alloc, rows, &come)
}
