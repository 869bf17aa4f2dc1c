//! The rows that a GRANT of privileges gives.
ghost use Rattle.std.specs.Prelude.{◌≡◌, ◌&&◌, IfOk, OnOk};
ghost use Rattle.std.specs.List.{list_any};
ghost use Rattle.acl_names.specs.AuthId.{same_auth};
ghost use Rattle.acl_model.specs.Effects.{gives};
ghost use Rattle.acl_model.specs.Rows.{holder, same_row};
ghost use Rattle.acl_model.specs.declared.row.Row.{Row as RowValue};
ghost use Rattle.acl_rows.specs.Tables.{state_of};
ghost use Rattle.acl_stmt.specs.declared.statement.Statement.TheVariants.{Grant};
ghost use Rattle.grant_effects.specs.Given.{given_of};
ghost use Rattle.grant_effects.specs.Lists.{Adds};

use crate::columns::add_column_rows;
use crate::limits::add_restrictions;
use crate::parts::GrantParts;
use crate::statics::{add_dynamic_rows, add_static_rows};
use acl_names::AuthId;
use acl_rows::{Row, Rows};
use acl_stmt::Limit;
use std::alloc::{AllocError, Global};

/// The rows that the grant gives, in no order, whether they stand already or not.
///
/// MySQL 8.0 Reference Manual, "GRANT Statement", "Privilege Restriction Using Partial Revokes".
pub fn rows_given(
    alloc: Global,
    before: &Rows,
    limits: &[Limit],
    grant: &GrantParts,
) -> Result<Vec<Row>, AllocError>
    ensures { IfOk result (λ rows. (row : RowValue) → list_any (same_row row) rows.items
        ≡ gives limits.now (Grant grant.now.privileges.now grant.now.target.now
        grant.now.accounts.now grant.now.with_grant_option) (state_of before.now) row) }
{
    let mut rows = Vec::new(alloc);
    for account in grant.accounts {
        add_rows(alloc, before, limits, grant, account, &mut rows)?;
    }
    Ok(rows)
}

// Adds the rows that the grant gives one account.
fn add_rows(
    alloc: Global,
    before: &Rows,
    limits: &[Limit],
    grant: &GrantParts,
    account: &AuthId,
    rows: &mut Vec<Row>,
) -> Result<(), AllocError>
    ensures { OnOk result (Adds (λ row. same_auth (holder row) account.now
        && given_of (state_of before.now) limits.now grant.now.privileges.now grant.now.target.now
        grant.now.with_grant_option row) rows.old.items rows.new.items) }
{
    add_static_rows(alloc, before, grant, account, rows)?;
    add_column_rows(alloc, grant, account, rows)?;
    add_dynamic_rows(alloc, grant, account, rows)?;
    add_restrictions(alloc, before, limits, grant, account, rows)
}
