//! The rows of static and dynamic privileges that a GRANT gives at its target.
ghost use Rattle.std.specs.Prelude.{◌≡◌, ◌&&◌, ◌||◌, ◌<◌, IfOk, OnOk};
ghost use Rattle.acl_names.specs.AuthId.{same_auth};
ghost use Rattle.acl_model.specs.Rows.{holder, same_row};
ghost use Rattle.acl_model.specs.Words.{names_dynamic};
ghost use Rattle.acl_model.specs.declared.row.Row.TheVariants.{Dynamic as DynamicRow, DynamicGrant as DynamicGrantRow};
ghost use Rattle.acl_rows.specs.Tables.{state_of};
ghost use Rattle.grant_effects.specs.Given.{dynamic_given, row_at, static_given};
ghost use Rattle.grant_effects.specs.Lists.{Adds};

use crate::granted::grants_number;
use crate::held::is_held;
use crate::parts::GrantParts;
use acl_names::AuthId;
use acl_rows::{Row, Rows, names_dynamic};
use acl_stmt::Target;
use std::alloc::{AllocError, Global};

/// Adds the rows of the static privileges that the grant gives an account.
pub(crate) fn add_static_rows(
    alloc: Global,
    before: &Rows,
    grant: &GrantParts,
    account: &AuthId,
    rows: &mut Vec<Row>,
) -> Result<(), AllocError>
    ensures { OnOk result (Adds (λ row. same_auth (holder row) account.now
        && static_given (state_of before.now) grant.now.privileges.now grant.now.target.now
        grant.now.with_grant_option row) rows.old.items rows.new.items) }
{
    for number in 0..31 {
        add_static_row(alloc, before, grant, account, number, rows)?;
    }
    Ok(())
}

fn add_static_row(
    alloc: Global,
    before: &Rows,
    grant: &GrantParts,
    account: &AuthId,
    number: u8,
    rows: &mut Vec<Row>,
) -> Result<(), AllocError>
    ensures { OnOk result (Adds (λ row. static_given
        (state_of before.now) grant.now.privileges.now grant.now.target.now
        grant.now.with_grant_option (row_at grant.now.target.now account.now number)
        && same_row row (row_at grant.now.target.now account.now number))
        rows.old.items rows.new.items) }
{
    if !gives_static(alloc, before, grant, account, number)? {
        return Ok(());
    }
    let row = row_at(alloc, grant.target, account, number)?;
    rows.push(row)?;
    Ok(())
}

fn gives_static(
    alloc: Global,
    before: &Rows,
    grant: &GrantParts,
    account: &AuthId,
    number: u8,
) -> Result<bool, AllocError>
    ensures { IfOk result (λ gives. gives ≡ static_given
        (state_of before.now) grant.now.privileges.now grant.now.target.now
        grant.now.with_grant_option (row_at grant.now.target.now account.now number)) }
{
    if !grants_number(grant, number) {
        return Ok(false);
    }
    let Target::Schema(schema) = grant.target else {
        return Ok(true);
    };
    let restriction = Row::Restriction(account.copy(alloc)?, number, schema.copy(alloc)?);
    Ok(!is_held(before, restriction))
}

// The row of a static privilege at the target.
fn row_at(alloc: Global, target: &Target, account: &AuthId, number: u8) -> Result<Row, AllocError>
    ensures { IfOk result (λ row. row ≡ row_at target.now account.now number) }
{
    let account = account.copy(alloc)?;
    Ok(match target {
        Target::Global => Row::Global(account, number),
        Target::Schema(schema) => Row::Schema(account, schema.copy(alloc)?, number),
        Target::Table(schema, table) => {
            Row::Table(account, schema.copy(alloc)?, table.copy(alloc)?, number)
        }
        Target::Function(schema, name) => {
            Row::Function(account, schema.copy(alloc)?, name.copy(alloc)?, number)
        }
        Target::Procedure(schema, name) => {
            Row::Procedure(account, schema.copy(alloc)?, name.copy(alloc)?, number)
        }
    })
}

/// Adds the rows of the dynamic privileges that the grant gives an account.
pub(crate) fn add_dynamic_rows(
    alloc: Global,
    grant: &GrantParts,
    account: &AuthId,
    rows: &mut Vec<Row>,
) -> Result<(), AllocError>
    ensures { OnOk result (Adds (λ row. same_auth (holder row) account.now
        && dynamic_given grant.now.privileges.now grant.now.target.now grant.now.with_grant_option
        row) rows.old.items rows.new.items) }
{
    let Target::Global = grant.target else {
        return Ok(());
    };
    for number in 0..20 {
        add_dynamic_row(alloc, grant, account, number, rows)?;
    }
    Ok(())
}

// Adds the row of one dynamic privilege, and that of its grant option, where they are given.
fn add_dynamic_row(
    alloc: Global,
    grant: &GrantParts,
    account: &AuthId,
    number: u8,
    rows: &mut Vec<Row>,
) -> Result<(), AllocError>
    requires { number < 20 }
    ensures { OnOk result (Adds (λ row. names_dynamic grant.now.privileges.now number &&
        (same_row row (DynamicRow account.now number)
        || (grant.now.with_grant_option && same_row row (DynamicGrantRow account.now number))))
        rows.old.items rows.new.items) }
{
    if !names_dynamic(grant.privileges, number) {
        return Ok(());
    }
    rows.push(Row::Dynamic(account.copy(alloc)?, number))?;
    add_grant_option(alloc, grant, account, number, rows)
}

fn add_grant_option(
    alloc: Global,
    grant: &GrantParts,
    account: &AuthId,
    number: u8,
    rows: &mut Vec<Row>,
) -> Result<(), AllocError>
    ensures { OnOk result (Adds (λ row. grant.now.with_grant_option && same_row row
        (DynamicGrantRow account.now number)) rows.old.items rows.new.items) }
{
    if !grant.with_grant_option {
        return Ok(());
    }
    rows.push(Row::DynamicGrant(account.copy(alloc)?, number))?;
    Ok(())
}
