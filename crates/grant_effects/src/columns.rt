//! The rows of columns that a GRANT gives.
ghost use Rattle.std.specs.Prelude.{◌≡◌, ◌&&◌, OnOk};
ghost use Rattle.std.specs.List.{list_any};
ghost use Rattle.acl_names.specs.AuthId.{same_auth};
ghost use Rattle.acl_model.specs.Rows.{holder, same_row};
ghost use Rattle.acl_model.specs.declared.row.Row.TheVariants.{Column as ColumnRow};
ghost use Rattle.grant_effects.specs.Given.{column_given};
ghost use Rattle.grant_effects.specs.Lists.{Adds};

use crate::parts::GrantParts;
use acl_names::{AuthId, Ident};
use acl_rows::Row;
use acl_stmt::{ColumnPriv, Target};
use std::alloc::{AllocError, Global};

/// Adds the rows of columns that the grant gives an account.
pub(crate) fn add_column_rows(
    alloc: Global,
    grant: &GrantParts,
    account: &AuthId,
    rows: &mut Vec<Row>,
) -> Result<(), AllocError>
    ensures { OnOk result (Adds (λ row. same_auth (holder row) account.now
        && column_given grant.now.privileges.now grant.now.target.now row)
        rows.old.items rows.new.items) }
{
    let Target::Table(schema, table) = grant.target else {
        return Ok(());
    };
    for columns in grant.privileges.columns.as_slice() {
        add_columns(alloc, account, schema, table, columns, rows)?;
    }
    Ok(())
}

fn add_columns(
    alloc: Global,
    account: &AuthId,
    schema: &Ident,
    table: &Ident,
    columns: &ColumnPriv,
    rows: &mut Vec<Row>,
) -> Result<(), AllocError>
    ensures { OnOk result (Adds (λ row. list_any (λ name. same_row row
        (ColumnRow account.now schema.now table.now name columns.now.privilege)) columns.now.names)
        rows.old.items rows.new.items) }
{
    for name in columns.names.as_slice() {
        add_column(alloc, account, schema, table, name, columns.privilege, rows)?;
    }
    Ok(())
}

fn add_column(
    alloc: Global,
    account: &AuthId,
    schema: &Ident,
    table: &Ident,
    name: &Ident,
    number: u8,
    rows: &mut Vec<Row>,
) -> Result<(), AllocError>
    ensures { OnOk result (Adds (λ row. same_row row
        (ColumnRow account.now schema.now table.now name.now number))
        rows.old.items rows.new.items) }
{
    let account = account.copy(alloc)?;
    let schema = schema.copy(alloc)?;
    let table = table.copy(alloc)?;
    let name = name.copy(alloc)?;
    rows.push(Row::Column(account, schema, table, name, number))?;
    Ok(())
}
