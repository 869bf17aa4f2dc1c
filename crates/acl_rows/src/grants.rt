//! The rows that stand beside the accounts.
ghost use Rattle.std.specs.Prelude.{◌≡◌, ◌||◌, ◌&&◌, ◌∷◌, ◌++◌, [], not, filter, IfOk, OnOk, OnErr, MatchResult, false};
ghost use Rattle.std.specs.List.{list_any};
ghost use Rattle.acl_names.specs.AuthId.{same_auth};
ghost use Rattle.acl_model.specs.Rows.{holder, same_row, some_name};
ghost use Rattle.acl_model.specs.declared.row.Row.TheVariants.{Account as AccountRow};
ghost use Rattle.acl_model.specs.declared.row.Row.{Row as RowValue};
ghost use Rattle.acl_rows.specs.Conditions.{is_account};
ghost use Rattle.acl_rows.specs.Holders.{holds_as_grant, names_as_grant};
ghost use Rattle.acl_rows.specs.Renaming.{new_name, row_renamed, rows_renamed};

use acl_model::Row;
use acl_names::AuthId;
use std::alloc::{AllocError, Global};

pub(crate) fn has_grant(grants: &[Row], row: &Row) -> bool
    ensures { result ≡ list_any (same_row row.now) grants.now }
{
    grants.iter().any(|standing| row.is(standing))
}

pub(crate) fn add_grant(grants: &mut Vec<Row>, row: Row) -> Result<(), AllocError>
    ensures ok { OnOk result (grants.new.items ≡ grants.old.items ++ row ∷ []) }
    ensures err { OnErr result (grants.new.items ≡ grants.old.items) }
{
    grants.push(row)?;
    Ok(())
}

pub(crate) fn remove_grant(grants: &mut Vec<Row>, row: &Row)
    ensures { grants.new.items ≡ filter (λ standing. not (same_row row.now standing)) grants.old.items }
{
    grants.retain(|standing| !row.is(standing));
}

pub(crate) fn copy_grants(alloc: Global, grants: &[Row]) -> Result<Vec<Row>, AllocError>
    ensures { IfOk result (λ made. made.items ≡ grants.now) }
{
    let mut made = Vec::with_capacity(alloc, grants.len())?;
    for row in grants {
        made.push(row.copy(alloc)?)?;
    }
    Ok(made)
}

/// The account of an account row, or else the row itself.
pub(crate) fn account_of(row: Row) -> Result<AuthId, Row>
    ensures { MatchResult result (λ account. row ≡ AccountRow account)
        (λ other. (other ≡ row) × (is_account row ≡ false)) }
{
    match row {
        Row::Account(account) => Ok(account),
        other => Err(other),
    }
}

/// Whose row it is.
pub(crate) fn holder(row: &Row) -> &AuthId
    ensures { result.now ≡ holder row.now }
{
    match row {
        Row::Account(a)
        | Row::Global(a, _)
        | Row::Dynamic(a, _)
        | Row::DynamicGrant(a, _)
        | Row::Schema(a, _, _)
        | Row::Table(a, _, _, _)
        | Row::Column(a, _, _, _, _)
        | Row::Function(a, _, _, _)
        | Row::Procedure(a, _, _, _)
        | Row::Edge { to: a, .. }
        | Row::Admin { to: a, .. }
        | Row::Default { of: a, .. }
        | Row::Restriction(a, _, _) => a,
    }
}

/// Whether the row names the account, as its holder or as a role.
pub(crate) fn names(row: &Row, account: &AuthId) -> bool
    ensures { result ≡ some_name (same_auth account.now) row.now }
{
    match row {
        Row::Edge { role, to } => account.is(role) || account.is(to),
        Row::Admin { role, to } => account.is(role) || account.is(to),
        Row::Default { of, role } => account.is(of) || account.is(role),
        _ => account.is(holder(row)),
    }
}

fn name_renamed(alloc: Global, a: &AuthId, old: &AuthId, new: &AuthId) -> Result<AuthId, AllocError>
    ensures { IfOk result (λ made. made ≡ new_name old.now new.now a.now) }
{
    if a.is(old) {
        new.copy(alloc)
    } else {
        a.copy(alloc)
    }
}

fn row_renamed(alloc: Global, row: &Row, old: &AuthId, new: &AuthId) -> Result<Row, AllocError>
    ensures { IfOk result (λ made. made ≡ row_renamed old.now new.now row.now) }
{
    let name = |a: &AuthId| name_renamed(alloc, a, old, new);
    Ok(match row {
        Row::Account(a) => Row::Account(name(a)?),
        Row::Global(a, p) => Row::Global(name(a)?, *p),
        Row::Dynamic(a, d) => Row::Dynamic(name(a)?, *d),
        Row::DynamicGrant(a, d) => Row::DynamicGrant(name(a)?, *d),
        Row::Schema(a, s, p) => Row::Schema(name(a)?, s.copy(alloc)?, *p),
        Row::Table(a, s, t, p) => Row::Table(name(a)?, s.copy(alloc)?, t.copy(alloc)?, *p),
        Row::Column(a, s, t, c, p) => Row::Column(
            name(a)?,
            s.copy(alloc)?,
            t.copy(alloc)?,
            c.copy(alloc)?,
            *p,
        ),
        Row::Function(a, s, f, p) => Row::Function(name(a)?, s.copy(alloc)?, f.copy(alloc)?, *p),
        Row::Procedure(a, s, f, p) => Row::Procedure(name(a)?, s.copy(alloc)?, f.copy(alloc)?, *p),
        Row::Edge { role, to } => Row::Edge {
            role: name(role)?,
            to: name(to)?,
        },
        Row::Admin { role, to } => Row::Admin {
            role: name(role)?,
            to: name(to)?,
        },
        Row::Default { of, role } => Row::Default {
            of: name(of)?,
            role: name(role)?,
        },
        Row::Restriction(a, p, s) => Row::Restriction(name(a)?, *p, s.copy(alloc)?),
    })
}

/// The rows with the new name in the place of the old one.
pub(crate) fn rows_renamed(
    alloc: Global,
    grants: &[Row],
    old: &AuthId,
    new: &AuthId,
) -> Result<Vec<Row>, AllocError>
    ensures { IfOk result (λ rows. rows.items ≡ rows_renamed old.now new.now grants.now) }
{
    let mut rows = Vec::with_capacity(alloc, grants.len())?;
    for row in grants {
        // A row of an account that had the new name without standing would be nobody's.
        if names(row, new) {
            continue;
        }
        rows.push(row_renamed(alloc, row, old, new)?)?;
    }
    Ok(rows)
}

fn is_account(row: &Row) -> bool
    ensures { result ≡ is_account row.now }
{
    matches!(row, Row::Account(_))
}

/// The rows that name the account, as their holder or as a role.
pub(crate) fn grants_naming(
    alloc: Global,
    grants: &[Row],
    account: &AuthId,
) -> Result<Vec<Row>, AllocError>
    ensures { IfOk result (λ made. made.items ≡ filter (names_as_grant account.now) grants.now) }
{
    let mut made = Vec::new(alloc);
    for row in grants {
        if is_account(row) || !names(row, account) {
            continue;
        }
        made.push(row.copy(alloc)?)?;
    }
    Ok(made)
}

/// The rows that the account holds.
pub(crate) fn grants_of(
    alloc: Global,
    grants: &[Row],
    account: &AuthId,
) -> Result<Vec<Row>, AllocError>
    ensures { IfOk result (λ made. made.items ≡ filter (holds_as_grant account.now) grants.now) }
{
    let mut made = Vec::new(alloc);
    for row in grants {
        if is_account(row) || !holder(row).is(account) {
            continue;
        }
        made.push(row.copy(alloc)?)?;
    }
    Ok(made)
}

/// Adds the account's own row where it stands.
pub(crate) fn add_own_row(
    alloc: Global,
    rows: &mut Vec<Row>,
    account: &AuthId,
    stands: bool,
) -> Result<(), AllocError>
    ensures { OnOk result ((row : RowValue) → list_any (same_row row) rows.new.items
        ≡ (list_any (same_row row) rows.old.items || (stands && same_row row (AccountRow account.now)))) }
{
    if stands {
        rows.push(Row::Account(account.copy(alloc)?))?;
    }
    Ok(())
}
