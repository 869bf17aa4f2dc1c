//! The rows that a GRANT of privileges takes.
ghost use Rattle.std.specs.Prelude.{◌≡◌, ◌&&◌, IfOk, filter};
ghost use Rattle.std.specs.List.{list_any};
ghost use Rattle.acl_names.specs.AuthId.{same_auth};
ghost use Rattle.acl_model.specs.Effects.{takes};
ghost use Rattle.acl_model.specs.Rows.{holder, same_row};
ghost use Rattle.acl_model.specs.declared.row.Row.{Row as RowValue};
ghost use Rattle.acl_rows.specs.Tables.{state_of};
ghost use Rattle.acl_stmt.specs.declared.statement.Statement.TheVariants.{Grant};
ghost use Rattle.grant_effects.specs.Lists.{HasJust};
ghost use Rattle.grant_effects.specs.Taken.{is_lifted, taken_of};

use crate::granted::{grants_number, is_limited};
use crate::parts::GrantParts;
use acl_names::{AuthId, Ident};
use acl_rows::{Row, Rows};
use acl_stmt::{Limit, Target};
use std::alloc::{AllocError, Global};

/// The standing rows that the grant takes, in no order: restrictions of what is granted, but those that the limits hand on.
///
/// MySQL 8.0 Reference Manual, "Privilege Restriction Using Partial Revokes".
pub fn rows_taken(
    alloc: Global,
    before: &Rows,
    limits: &[Limit],
    grant: &GrantParts,
) -> Result<Vec<Row>, AllocError>
    ensures { IfOk result (λ rows. (row : RowValue) → list_any (same_row row) rows.items ≡
        ((state_of before.now).rows row
        && takes limits.now (Grant grant.now.privileges.now grant.now.target.now
        grant.now.accounts.now grant.now.with_grant_option) row)) }
{
    let mut rows = Vec::new(alloc);
    for account in grant.accounts {
        let mut taken = rows_taken_from(alloc, before, limits, grant, account)?;
        rows.append(&mut taken)?;
    }
    Ok(rows)
}

fn rows_taken_from(
    alloc: Global,
    before: &Rows,
    limits: &[Limit],
    grant: &GrantParts,
    account: &AuthId,
) -> Result<Vec<Row>, AllocError>
    ensures { IfOk result (λ rows. HasJust (λ row. same_auth (holder row) account.now
        && ((state_of before.now).rows row && taken_of limits.now grant.now.privileges.now
        grant.now.target.now grant.now.with_grant_option row)) rows.items) }
{
    let mut rows = before.rows_of(alloc, account)?.into_vec();
    keep_taken(&mut rows, limits, grant);
    Ok(rows)
}

fn keep_taken(rows: &mut Vec<Row>, limits: &[Limit], grant: &GrantParts)
    ensures { rows.new.items ≡ filter (taken_of limits.now grant.now.privileges.now
        grant.now.target.now grant.now.with_grant_option) rows.old.items }
{
    rows.retain(|row| is_taken(limits, grant, row));
}

fn is_taken(limits: &[Limit], grant: &GrantParts, row: &Row) -> bool
    ensures { result ≡ taken_of limits.now grant.now.privileges.now grant.now.target.now
        grant.now.with_grant_option row.now }
{
    match row {
        Row::Restriction(_, number, schema) => is_lifted(limits, grant, *number, schema),
        _ => false,
    }
}

// Whether the grant takes a restriction of the privilege on the schema.
fn is_lifted(limits: &[Limit], grant: &GrantParts, number: u8, schema: &Ident) -> bool
    ensures { result ≡ is_lifted limits.now grant.now.privileges.now grant.now.target.now
        grant.now.with_grant_option number schema.now }
{
    if !grants_number(grant, number) {
        return false;
    }
    match grant.target {
        Target::Global => !is_limited(limits, schema, number),
        Target::Schema(at) => at.is(schema),
        _ => false,
    }
}
