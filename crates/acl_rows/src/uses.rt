//! What the limits count: each schema, pair, object and edge that rows use, once.
ghost use Rattle.std.specs.Prelude.{◌≡◌, IfOk, OnOk};
ghost use Rattle.std.specs.List.{list_any};
ghost use Rattle.acl_names.specs.Text.{text_eq};
ghost use Rattle.acl_model.specs.Counts.{same_pair};
ghost use Rattle.acl_model.specs.Rows.{same_row};
ghost use Rattle.acl_rows.specs.Uses.{distinct, edge_of, noted, object_of, pair_of, schema_of};

use acl_model::Row;
use acl_names::{AuthId, Ident};
use std::alloc::{AllocError, Global};

fn schema_of(alloc: Global, row: &Row) -> Result<Option<Ident>, AllocError>
    ensures { IfOk result (λ schema. schema ≡ schema_of row.now) }
{
    match row {
        Row::Schema(_, s, _) => Ok(Some(s.copy(alloc)?)),
        Row::Restriction(_, _, s) => Ok(Some(s.copy(alloc)?)),
        _ => Ok(None),
    }
}

fn pair_of(alloc: Global, row: &Row) -> Result<Option<(AuthId, Ident)>, AllocError>
    ensures { IfOk result (λ pair. pair ≡ pair_of row.now) }
{
    match row {
        Row::Schema(a, s, _) => Ok(Some((a.copy(alloc)?, s.copy(alloc)?))),
        Row::Restriction(a, _, s) => Ok(Some((a.copy(alloc)?, s.copy(alloc)?))),
        _ => Ok(None),
    }
}

fn object_of(alloc: Global, row: &Row) -> Result<Option<Row>, AllocError>
    ensures { IfOk result (λ object. object ≡ object_of row.now) }
{
    match row {
        Row::Table(a, s, t, _) => Ok(Some(Row::Table(
            a.copy(alloc)?,
            s.copy(alloc)?,
            t.copy(alloc)?,
            0,
        ))),
        Row::Column(a, s, t, c, _) => Ok(Some(Row::Column(
            a.copy(alloc)?,
            s.copy(alloc)?,
            t.copy(alloc)?,
            c.copy(alloc)?,
            0,
        ))),
        Row::Function(a, s, f, _) => Ok(Some(Row::Function(
            a.copy(alloc)?,
            s.copy(alloc)?,
            f.copy(alloc)?,
            0,
        ))),
        Row::Procedure(a, s, f, _) => Ok(Some(Row::Procedure(
            a.copy(alloc)?,
            s.copy(alloc)?,
            f.copy(alloc)?,
            0,
        ))),
        _ => Ok(None),
    }
}

fn edge_of(alloc: Global, row: &Row) -> Result<Option<Row>, AllocError>
    ensures { IfOk result (λ edge. edge ≡ edge_of row.now) }
{
    match row {
        Row::Edge { .. } | Row::Default { .. } => Ok(Some(row.copy(alloc)?)),
        _ => Ok(None),
    }
}

fn has_schema(seen: &[Ident], schema: &Ident) -> bool
    ensures { result ≡ list_any (text_eq schema.now) seen.now }
{
    seen.iter().any(|other| schema.is(other))
}

fn is_pair(one: &(AuthId, Ident), other: &(AuthId, Ident)) -> bool
    ensures { result ≡ same_pair one.now other.now }
{
    one.0.is(&other.0) && one.1.is(&other.1)
}

fn has_pair(seen: &[(AuthId, Ident)], pair: &(AuthId, Ident)) -> bool
    ensures { result ≡ list_any (same_pair pair.now) seen.now }
{
    seen.iter().any(|other| is_pair(pair, other))
}

fn has_row(seen: &[Row], row: &Row) -> bool
    ensures { result ≡ list_any (same_row row.now) seen.now }
{
    seen.iter().any(|other| row.is(other))
}

fn note_schema(seen: &mut Vec<Ident>, schema: Option<Ident>) -> Result<(), AllocError>
    ensures { OnOk result (seen.new.items ≡ noted text_eq seen.old.items schema) }
{
    let Some(schema) = schema else {
        return Ok(());
    };
    if !has_schema(seen, &schema) {
        seen.push(schema)?;
    }
    Ok(())
}

fn note_pair(
    seen: &mut Vec<(AuthId, Ident)>,
    pair: Option<(AuthId, Ident)>,
) -> Result<(), AllocError>
    ensures { OnOk result (seen.new.items ≡ noted same_pair seen.old.items pair) }
{
    let Some(pair) = pair else {
        return Ok(());
    };
    if !has_pair(seen, &pair) {
        seen.push(pair)?;
    }
    Ok(())
}

fn note_row(seen: &mut Vec<Row>, row: Option<Row>) -> Result<(), AllocError>
    ensures { OnOk result (seen.new.items ≡ noted same_row seen.old.items row) }
{
    let Some(row) = row else {
        return Ok(());
    };
    if !has_row(seen, &row) {
        seen.push(row)?;
    }
    Ok(())
}

/// The schemas of schema privileges and restrictions.
pub(crate) fn schemas(alloc: Global, grants: &[Row]) -> Result<Vec<Ident>, AllocError>
    ensures { IfOk result (λ seen. seen.items ≡ distinct text_eq schema_of grants.now) }
{
    let mut seen = Vec::new(alloc);
    for row in grants {
        note_schema(&mut seen, schema_of(alloc, row)?)?;
    }
    Ok(seen)
}

/// The accounts with schema privileges and restrictions, each with the schema.
pub(crate) fn pairs(alloc: Global, grants: &[Row]) -> Result<Vec<(AuthId, Ident)>, AllocError>
    ensures { IfOk result (λ seen. seen.items ≡ distinct same_pair pair_of grants.now) }
{
    let mut seen = Vec::new(alloc);
    for row in grants {
        note_pair(&mut seen, pair_of(alloc, row)?)?;
    }
    Ok(seen)
}

/// The accounts with tables, columns and routines, each with the object, as rows of the privilege 0.
pub(crate) fn objects(alloc: Global, grants: &[Row]) -> Result<Vec<Row>, AllocError>
    ensures { IfOk result (λ seen. seen.items ≡ distinct same_row object_of grants.now) }
{
    let mut seen = Vec::new(alloc);
    for row in grants {
        note_row(&mut seen, object_of(alloc, row)?)?;
    }
    Ok(seen)
}

/// The granted roles and the default roles.
pub(crate) fn edges(alloc: Global, grants: &[Row]) -> Result<Vec<Row>, AllocError>
    ensures { IfOk result (λ seen. seen.items ≡ distinct same_row edge_of grants.now) }
{
    let mut seen = Vec::new(alloc);
    for row in grants {
        note_row(&mut seen, edge_of(alloc, row)?)?;
    }
    Ok(seen)
}
