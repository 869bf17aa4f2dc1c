//! Whether a row is the one of these fields, which need not stand in memory as a row.
ghost use Rattle.std.specs.Prelude.{◌≡◌};
ghost use Rattle.acl_model.specs.Rows.{same_row};
ghost use Rattle.acl_model.specs.declared.row.Row.TheVariants.{Column as ColumnRow, Dynamic as DynamicRow, DynamicGrant as DynamicGrantRow, Function as FunctionRow, Global as GlobalRow, Procedure as ProcedureRow, Schema as SchemaRow, Table as TableRow};

use acl_model::Row;
use acl_names::{AuthId, Ident};

pub(crate) fn is_global(row: &Row, account: &AuthId, privilege: u8) -> bool
    ensures { result ≡ same_row (GlobalRow account.now privilege) row.now }
{
    match row {
        Row::Global(a, p) => account.is(a) && privilege == *p,
        _ => false,
    }
}

pub(crate) fn is_dynamic(row: &Row, account: &AuthId, privilege: u8) -> bool
    ensures { result ≡ same_row (DynamicRow account.now privilege) row.now }
{
    match row {
        Row::Dynamic(a, d) => account.is(a) && privilege == *d,
        _ => false,
    }
}

pub(crate) fn is_dynamic_grant(row: &Row, account: &AuthId, privilege: u8) -> bool
    ensures { result ≡ same_row (DynamicGrantRow account.now privilege) row.now }
{
    match row {
        Row::DynamicGrant(a, d) => account.is(a) && privilege == *d,
        _ => false,
    }
}

pub(crate) fn is_on_schema(row: &Row, account: &AuthId, schema: &Ident, privilege: u8) -> bool
    ensures { result ≡ same_row (SchemaRow account.now schema.now privilege) row.now }
{
    match row {
        Row::Schema(a, s, p) => account.is(a) && schema.is(s) && privilege == *p,
        _ => false,
    }
}

pub(crate) fn is_on_table(
    row: &Row,
    account: &AuthId,
    schema: &Ident,
    table: &Ident,
    privilege: u8,
) -> bool
    ensures { result ≡ same_row (TableRow account.now schema.now table.now privilege) row.now }
{
    match row {
        Row::Table(a, s, t, p) => {
            account.is(a) && schema.is(s) && table.is(t) && privilege == *p
        }
        _ => false,
    }
}

pub(crate) fn is_on_column(
    row: &Row,
    account: &AuthId,
    schema: &Ident,
    table: &Ident,
    column: &Ident,
    privilege: u8,
) -> bool
    ensures { result ≡ same_row
        (ColumnRow account.now schema.now table.now column.now privilege) row.now }
{
    match row {
        Row::Column(a, s, t, c, p) => {
            account.is(a) && schema.is(s) && table.is(t) && column.is(c) && privilege == *p
        }
        _ => false,
    }
}

pub(crate) fn is_on_function(
    row: &Row,
    account: &AuthId,
    schema: &Ident,
    name: &Ident,
    privilege: u8,
) -> bool
    ensures { result ≡ same_row (FunctionRow account.now schema.now name.now privilege) row.now }
{
    match row {
        Row::Function(a, s, f, p) => {
            account.is(a) && schema.is(s) && name.is(f) && privilege == *p
        }
        _ => false,
    }
}

pub(crate) fn is_on_procedure(
    row: &Row,
    account: &AuthId,
    schema: &Ident,
    name: &Ident,
    privilege: u8,
) -> bool
    ensures { result ≡ same_row (ProcedureRow account.now schema.now name.now privilege) row.now }
{
    match row {
        Row::Procedure(a, s, f, p) => {
            account.is(a) && schema.is(s) && name.is(f) && privilege == *p
        }
        _ => false,
    }
}
