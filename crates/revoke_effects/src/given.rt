//! The restrictions that REVOKE at a schema gives.
ghost use Rattle.std.specs.Prelude.{◌≡◌, ◌++◌, [], IfOk, OnOk, option_to_list};
ghost use Rattle.std.specs.List.{filter_map, list_any};
ghost use Rattle.acl_model.specs.Effects.{gives};
ghost use Rattle.acl_model.specs.Rows.{same_row};
ghost use Rattle.acl_model.specs.declared.row.Row.{Row as RowValue};
ghost use Rattle.acl_rows.specs.Tables.{state_of};
ghost use Rattle.acl_stmt.specs.declared.statement.Statement.TheVariants.{Revoke};
ghost use Rattle.acl_stmt.specs.declared.target.Target.TheVariants.{Schema as OnSchema};
ghost use Rattle.revoke_effects.specs.Given.{restriction_of};

use acl_names::{AuthId, Ident};
use acl_rows::{Row, Rows, names_static};
use acl_stmt::{PrivList, Target};
use priv_sets::Level;
use std::alloc::{AllocError, Global};

/// The rows that REVOKE of privileges at a target gives: at a schema, a restriction for each named privilege that an account
/// holds on `*.*`. Restrictions that stand already are among them.
///
/// MySQL 8.0 Reference Manual, "Privilege Restriction Using Partial Revokes".
pub fn rows_given(
    alloc: Global,
    before: &Rows,
    privileges: &PrivList,
    target: &Target,
    accounts: &[AuthId],
) -> Result<Vec<Row>, AllocError>
    ensures { IfOk result (λ rows. (row : RowValue) → list_any (same_row row) rows.items
        ≡ gives [] (Revoke privileges.now target.now accounts.now) (state_of before.now) row) }
{
    match target {
        Target::Schema(schema) => restrictions(alloc, before, privileges, schema, accounts),
        _ => Ok(Vec::new(alloc)),
    }
}

fn restrictions(
    alloc: Global,
    before: &Rows,
    privileges: &PrivList,
    schema: &Ident,
    accounts: &[AuthId],
) -> Result<Vec<Row>, AllocError>
    ensures { IfOk result (λ rows. (row : RowValue) → list_any (same_row row) rows.items
        ≡ gives [] (Revoke privileges.now (OnSchema schema.now) accounts.now) (state_of before.now) row) }
{
    let mut given = Vec::new(alloc);
    for account in accounts {
        let held = before.rows_of(alloc, account)?;
        add_restrictions(alloc, &mut given, privileges, schema, held.as_slice())?;
    }
    Ok(given)
}

fn add_restrictions(
    alloc: Global,
    given: &mut Vec<Row>,
    privileges: &PrivList,
    schema: &Ident,
    held: &[Row],
) -> Result<(), AllocError>
    ensures { OnOk result (given.new.items
        ≡ given.old.items ++ filter_map (restriction_of privileges.now schema.now) held.now) }
{
    for row in held {
        add_row(given, restriction_of(alloc, privileges, schema, row)?)?;
    }
    Ok(())
}

fn add_row(rows: &mut Vec<Row>, row: Option<Row>) -> Result<(), AllocError>
    ensures { OnOk result (rows.new.items ≡ rows.old.items ++ option_to_list row) }
{
    if let Some(row) = row {
        rows.push(row)?;
    }
    Ok(())
}

fn restriction_of(
    alloc: Global,
    privileges: &PrivList,
    schema: &Ident,
    row: &Row,
) -> Result<Option<Row>, AllocError>
    ensures { IfOk result (λ restriction. restriction ≡ restriction_of privileges.now schema.now row.now) }
{
    match row {
        Row::Global(account, p) if names_static(privileges, Level::Schema, *p) => Ok(Some(
            Row::Restriction(account.copy(alloc)?, *p, schema.copy(alloc)?),
        )),
        _ => Ok(None),
    }
}
