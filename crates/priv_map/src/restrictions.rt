//! The schemas that an account's privileges on `*.*` do not reach.
ghost use Rattle.std.specs.Prelude.{◌≡◌, ℕ, ◌<◌, ◌||◌, ◌&&◌, ◌==◌, List, IfOk, IsTrue, OnOk};
ghost use Rattle.std.specs.List.{list_any};
ghost use Rattle.std.specs.List.Sorted.{IsStrictlySortedBy};
ghost use Rattle.acl_model.specs.Rows.{same_row};
ghost use Rattle.acl_model.specs.Words.{limited};
ghost use Rattle.acl_model.specs.declared.row.Row.TheVariants.{Restriction as RestrictionRow};
ghost use Rattle.acl_names.specs.Text.{text_cmp, text_eq};
ghost use Rattle.acl_stmt.specs.Entries.{are_limits_in_order};
ghost use Rattle.priv_map.specs.Restricted.{AddsLimit, is_restriction_on, lists_restriction, restricts};
ghost use Rattle.priv_sets.specs.Levels.{has_level};
ghost use Rattle.priv_sets.specs.StaticSet.{holds, is_known};
ghost use Rattle.priv_sets.specs.declared.level.Level.TheVariants.{Schema as SchemaLevel};

use acl_items::Items;
use acl_names::{AuthId, Ident};
use acl_rows::Row;
use acl_stmt::Limit;
use priv_sets::{Level, Plain, Static};
use std::alloc::{AllocError, Global};

/// One limit for each schema that some of these privileges of the account do not reach, in order.
pub(crate) fn restrictions_of(
    alloc: Global,
    rows: &[Row],
    account: &AuthId,
    plain: Static,
) -> Result<Items<Limit>, AllocError>
    ensures limited { IfOk result (λ limits. (schema : List ℕ) (p : ℕ) → p < 31 →
        limited limits schema p ≡ restricts rows.now account.now plain schema p) }
    ensures order { IfOk result (λ limits. IsTrue (are_limits_in_order limits)) }
{
    let schemas = restricted_schemas(alloc, rows, account)?;
    let mut limits = Items::new(alloc);
    for schema in &schemas {
        let privileges = restricted_on(rows, account, plain, schema);
        add_limit(alloc, &mut limits, schema, privileges)?;
    }
    Ok(limits)
}

fn add_limit(
    alloc: Global,
    limits: &mut Items<Limit>,
    schema: &Ident,
    privileges: Static,
) -> Result<(), AllocError>
    requires known { IsTrue (is_known privileges) }
    requires level { (q : ℕ) → IsTrue (holds privileges q) → IsTrue (has_level SchemaLevel q) }
    ensures { OnOk result (AddsLimit limits.old limits.new schema.now privileges) }
{
    if privileges.is_empty() {
        return Ok(());
    }
    let schema = schema.copy(alloc)?;
    limits.push(Limit { schema, privileges })?;
    Ok(())
}

// The schemas with a restriction of the account, each once.
fn restricted_schemas(
    alloc: Global,
    rows: &[Row],
    account: &AuthId,
) -> Result<Vec<Ident>, AllocError>
    ensures listed { IfOk result (λ schemas. (schema : List ℕ) →
        list_any (text_eq schema) schemas.items ≡ list_any (is_restriction_on account.now schema) rows.now) }
    ensures order { IfOk result (λ schemas. IsStrictlySortedBy text_cmp schemas.items) }
{
    let mut schemas = named_schemas(alloc, rows, account)?;
    schemas.sort()?;
    schemas.dedup();
    Ok(schemas)
}

fn named_schemas(alloc: Global, rows: &[Row], account: &AuthId) -> Result<Vec<Ident>, AllocError>
    ensures { IfOk result (λ schemas. (schema : List ℕ) →
        list_any (text_eq schema) schemas.items ≡ list_any (is_restriction_on account.now schema) rows.now) }
{
    let mut schemas = Vec::new(alloc);
    for row in rows {
        note_schema(alloc, &mut schemas, row, account)?;
    }
    Ok(schemas)
}

fn note_schema(
    alloc: Global,
    schemas: &mut Vec<Ident>,
    row: &Row,
    account: &AuthId,
) -> Result<(), AllocError>
    ensures { OnOk result ((schema : List ℕ) → list_any (text_eq schema) schemas.new.items
        ≡ (list_any (text_eq schema) schemas.old.items || is_restriction_on account.now schema row.now)) }
{
    let Row::Restriction(holder, _, schema) = row else {
        return Ok(());
    };
    if account.is(holder) {
        schemas.push(schema.copy(alloc)?)?;
    }
    Ok(())
}

// Those of the privileges that do not reach the schema.
fn restricted_on(rows: &[Row], account: &AuthId, plain: Static, schema: &Ident) -> Static
    ensures members { (q : ℕ) → q < 31 →
        holds result q ≡ restricts rows.now account.now plain schema.now q }
    ensures level { (q : ℕ) → IsTrue (holds result q) → IsTrue (has_level SchemaLevel q) }
    ensures known { IsTrue (is_known result) }
{
    let mut restricted = Static::none();
    for row in rows {
        restricted = with_restriction(restricted, row, account, schema);
    }
    Static::at_level(Level::Schema)
        .intersection(plain)
        .intersection(restricted)
}

fn with_restriction(set: Static, row: &Row, account: &AuthId, schema: &Ident) -> Static
    ensures members { (q : ℕ) → q < 31 → holds result q
        ≡ (holds set q || same_row (RestrictionRow account.now q schema.now) row.now) }
    ensures known { IsTrue (is_known set) → IsTrue (is_known result) }
{
    match row {
        Row::Restriction(holder, number, name) => {
            let is_on = account.is(holder) && schema.is(name);
            with_where(set, *number, is_on)
        }
        _ => set,
    }
}

fn with_where(set: Static, number: u8, is_on: bool) -> Static
    ensures members { (q : ℕ) → q < 31 →
        holds result q ≡ ((is_on && q == number) || holds set q) }
    ensures known { IsTrue (is_known set) → IsTrue (is_known result) }
{
    if is_on && number < 31 {
        set.with(Plain::new(number))
    } else {
        set
    }
}
