//! The first account for which REVOKE finds nothing.
ghost use Rattle.std.specs.Prelude.{◌≡◌, None, IfOk, MatchOption};
ghost use Rattle.std.specs.Bool.{MatchBool};
ghost use Rattle.std.specs.List.{list_any};
ghost use Rattle.std.specs.Option.{option_copied};
ghost use Rattle.acl_model.specs.Firsts.{HasNone, IsFirst};
ghost use Rattle.acl_model.specs.Refusals.{no_account};
ghost use Rattle.acl_rows.specs.Tables.{state_of};
ghost use Rattle.revoke_effects.specs.Found.{FindsNothing, IsGrantFault, found_on_function, found_on_procedure, found_on_schema, found_on_table, is_everything, is_found};

use acl_names::{AuthId, Ident};
use acl_rows::{Row, Rows, names_static};
use acl_stmt::{PrivList, Target};
use priv_sets::Level;
use std::alloc::{AllocError, Global};

/// The first account for which REVOKE of privileges finds nothing to take: at a schema one that has no row on it and holds none of
/// the named privileges on `*.*`, at a table one without a row on it or on its columns, at a routine one without a row on it. On
/// `*.*` there is none.
///
/// MySQL 8.0 Reference Manual, "REVOKE Statement".
pub fn first_without_grant<'a>(
    alloc: Global,
    before: &Rows,
    privileges: &PrivList,
    target: &Target,
    accounts: &'a [AuthId],
) -> Result<Option<&'a AuthId>, AllocError>
    ensures first { IfOk result (λ found. MatchOption (option_copied found)
        (HasNone (FindsNothing (state_of before.now) privileges.now target.now) accounts.now)
        (IsFirst (FindsNothing (state_of before.now) privileges.now target.now) accounts.now)) }
    ensures fault { IfOk result (λ found. no_account (state_of before.now) accounts.now ≡ None →
        IsGrantFault (state_of before.now) privileges.now target.now accounts.now (option_copied found)) }
{
    for account in accounts {
        if finds_nothing(alloc, before, privileges, target, account)? {
            return Ok(Some(account));
        }
    }
    Ok(None)
}

fn finds_nothing(
    alloc: Global,
    before: &Rows,
    privileges: &PrivList,
    target: &Target,
    account: &AuthId,
) -> Result<bool, AllocError>
    ensures { IfOk result (λ nothing. MatchBool nothing
        (FindsNothing (state_of before.now) privileges.now target.now account.now)
        (FindsNothing (state_of before.now) privileges.now target.now account.now → ⊥)) }
{
    if is_global(target) {
        return Ok(false);
    }
    let held = before.rows_of(alloc, account)?;
    Ok(!has_found(privileges, target, held.as_slice()))
}

fn is_global(target: &Target) -> bool
    ensures { result ≡ is_everything target.now }
{
    matches!(target, Target::Global)
}

fn has_found(privileges: &PrivList, target: &Target, held: &[Row]) -> bool
    ensures { result ≡ list_any (is_found privileges.now target.now) held.now }
{
    held.iter().any(|row| is_found(privileges, target, row))
}

fn is_found(privileges: &PrivList, target: &Target, row: &Row) -> bool
    ensures { result ≡ is_found privileges.now target.now row.now }
{
    match target {
        Target::Global => false,
        Target::Schema(schema) => is_found_on_schema(privileges, schema, row),
        Target::Table(schema, table) => is_found_on_table(schema, table, row),
        Target::Function(schema, name) => is_found_on_function(schema, name, row),
        Target::Procedure(schema, name) => is_found_on_procedure(schema, name, row),
    }
}

fn is_found_on_schema(privileges: &PrivList, schema: &Ident, row: &Row) -> bool
    ensures { result ≡ found_on_schema privileges.now schema.now row.now }
{
    match row {
        Row::Schema(_, s, p) => schema.is(s) && *p < 31,
        Row::Global(_, p) => names_static(privileges, Level::Schema, *p),
        _ => false,
    }
}

fn is_found_on_table(schema: &Ident, table: &Ident, row: &Row) -> bool
    ensures { result ≡ found_on_table schema.now table.now row.now }
{
    match row {
        Row::Table(_, s, t, _) | Row::Column(_, s, t, _, _) => schema.is(s) && table.is(t),
        _ => false,
    }
}

fn is_found_on_function(schema: &Ident, name: &Ident, row: &Row) -> bool
    ensures { result ≡ found_on_function schema.now name.now row.now }
{
    match row {
        Row::Function(_, s, f, p) => schema.is(s) && name.is(f) && *p < 31,
        _ => false,
    }
}

fn is_found_on_procedure(schema: &Ident, name: &Ident, row: &Row) -> bool
    ensures { result ≡ found_on_procedure schema.now name.now row.now }
{
    match row {
        Row::Procedure(_, s, f, p) => schema.is(s) && name.is(f) && *p < 31,
        _ => false,
    }
}
