//! The rows that REVOKE takes.
ghost use Rattle.std.specs.Prelude.{◌≡◌, ◌&&◌, ◌++◌, [], IfOk, OnOk, filter};
ghost use Rattle.std.specs.List.{list_any};
ghost use Rattle.acl_names.specs.AuthId.{same_auth};
ghost use Rattle.acl_model.specs.Effects.{takes};
ghost use Rattle.acl_model.specs.Rows.{holder, is_privilege_row, same_row};
ghost use Rattle.acl_model.specs.declared.row.Row.{Row as RowValue};
ghost use Rattle.acl_rows.specs.Tables.{state_of};
ghost use Rattle.acl_stmt.specs.declared.statement.Statement.TheVariants.{Revoke, RevokeAll};
ghost use Rattle.revoke_effects.specs.Taken.{taken_at, taken_globally, taken_on_function, taken_on_procedure, taken_on_schema, taken_on_table};

use crate::columns::names_column;
use acl_names::{AuthId, Ident};
use acl_rows::{Row, Rows, names_dynamic, names_static};
use acl_stmt::{PrivList, Target};
use priv_sets::{Level, Plain};
use std::alloc::{AllocError, Global};

/// The standing rows that REVOKE of privileges at a target takes from the accounts, in no order that is promised; one that an
/// account listed twice holds stands twice in the list.
///
/// MySQL 8.0 Reference Manual, "REVOKE Statement".
pub fn rows_taken(
    alloc: Global,
    before: &Rows,
    privileges: &PrivList,
    target: &Target,
    accounts: &[AuthId],
) -> Result<Vec<Row>, AllocError>
    ensures { IfOk result (λ rows. (row : RowValue) → list_any (same_row row) rows.items
        ≡ ((state_of before.now).rows row
        && takes [] (Revoke privileges.now target.now accounts.now) row)) }
{
    let mut taken = Vec::new(alloc);
    for account in accounts {
        let held = before.rows_of(alloc, account)?;
        add_taken(alloc, &mut taken, privileges, target, held.as_slice())?;
    }
    Ok(taken)
}

/// The standing rows that REVOKE ALL PRIVILEGES, GRANT OPTION takes from the accounts, in no order that is promised; one that an
/// account listed twice holds stands twice in the list.
///
/// MySQL 8.0 Reference Manual, "REVOKE Statement".
pub fn all_rows_taken(
    alloc: Global,
    before: &Rows,
    accounts: &[AuthId],
) -> Result<Vec<Row>, AllocError>
    ensures { IfOk result (λ rows. (row : RowValue) → list_any (same_row row) rows.items
        ≡ ((state_of before.now).rows row && takes [] (RevokeAll accounts.now) row)) }
{
    let mut taken = Vec::new(alloc);
    for account in accounts {
        let held = before.rows_of(alloc, account)?;
        add_privileges(alloc, &mut taken, held.as_slice())?;
    }
    Ok(taken)
}

fn add_taken(
    alloc: Global,
    taken: &mut Vec<Row>,
    privileges: &PrivList,
    target: &Target,
    held: &[Row],
) -> Result<(), AllocError>
    ensures { OnOk result (taken.new.items
        ≡ taken.old.items ++ filter (taken_at privileges.now target.now) held.now) }
{
    for row in held {
        if !is_taken(privileges, target, row) {
            continue;
        }
        taken.push(row.copy(alloc)?)?;
    }
    Ok(())
}

fn add_privileges(alloc: Global, taken: &mut Vec<Row>, held: &[Row]) -> Result<(), AllocError>
    ensures { OnOk result (taken.new.items ≡ taken.old.items ++ filter is_privilege_row held.now) }
{
    for row in held {
        if !is_privilege_row(row) {
            continue;
        }
        taken.push(row.copy(alloc)?)?;
    }
    Ok(())
}

fn is_privilege_row(row: &Row) -> bool
    ensures { result ≡ is_privilege_row row.now }
{
    match row {
        Row::Account(_) | Row::Edge { .. } | Row::Admin { .. } | Row::Default { .. } => false,
        _ => true,
    }
}

fn is_taken(privileges: &PrivList, target: &Target, row: &Row) -> bool
    ensures { result ≡ taken_at privileges.now target.now row.now }
{
    match target {
        Target::Global => is_taken_globally(privileges, row),
        Target::Schema(schema) => is_taken_on_schema(privileges, schema, row),
        Target::Table(schema, table) => is_taken_on_table(privileges, schema, table, row),
        Target::Function(schema, name) => is_taken_on_function(privileges, schema, name, row),
        Target::Procedure(schema, name) => is_taken_on_procedure(privileges, schema, name, row),
    }
}

fn is_taken_globally(privileges: &PrivList, row: &Row) -> bool
    ensures { result ≡ taken_globally privileges.now row.now }
{
    let option = Plain::grant_option().number();
    match row {
        Row::Global(_, p) | Row::Restriction(_, p, _) => {
            names_static(privileges, Level::Global, *p)
        }
        Row::Dynamic(_, d) => names_dynamic(privileges, *d),
        Row::DynamicGrant(_, d) => {
            names_dynamic(privileges, *d) || names_static(privileges, Level::Global, option)
        }
        _ => false,
    }
}

fn is_taken_on_schema(privileges: &PrivList, schema: &Ident, row: &Row) -> bool
    ensures { result ≡ taken_on_schema privileges.now schema.now row.now }
{
    match row {
        Row::Schema(_, s, p) => schema.is(s) && names_static(privileges, Level::Schema, *p),
        _ => false,
    }
}

fn is_taken_on_table(privileges: &PrivList, schema: &Ident, table: &Ident, row: &Row) -> bool
    ensures { result ≡ taken_on_table privileges.now schema.now table.now row.now }
{
    match row {
        Row::Table(_, s, t, p) => {
            schema.is(s) && table.is(t) && names_static(privileges, Level::Table, *p)
        }
        Row::Column(_, s, t, c, p) => {
            schema.is(s) && table.is(t) && names_column(privileges, *p, c)
        }
        _ => false,
    }
}

fn is_taken_on_function(privileges: &PrivList, schema: &Ident, name: &Ident, row: &Row) -> bool
    ensures { result ≡ taken_on_function privileges.now schema.now name.now row.now }
{
    match row {
        Row::Function(_, s, f, p) => {
            schema.is(s) && name.is(f) && names_static(privileges, Level::Routine, *p)
        }
        _ => false,
    }
}

fn is_taken_on_procedure(privileges: &PrivList, schema: &Ident, name: &Ident, row: &Row) -> bool
    ensures { result ≡ taken_on_procedure privileges.now schema.now name.now row.now }
{
    match row {
        Row::Procedure(_, s, f, p) => {
            schema.is(s) && name.is(f) && names_static(privileges, Level::Routine, *p)
        }
        _ => false,
    }
}
