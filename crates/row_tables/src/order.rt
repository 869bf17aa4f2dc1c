//! The order of rows: by their kinds, and then by their fields.
ghost use Rattle.std.specs.Prelude.{◌≡◌, OnOk};
ghost use Rattle.std.specs.List.{list_any};
ghost use Rattle.std.specs.List.Sorted.{IsStrictlySortedBy};
ghost use Rattle.acl_model.specs.Rows.{same_row};
ghost use Rattle.acl_model.specs.declared.row.Row.{Row as RowValue};
ghost use Rattle.row_tables.specs.Order.{accounts_cmp, first_account, first_text, kind_of, last_number, leading_number, row_cmp, second_account, second_text, texts_cmp, third_text};

use acl_model::Row;
use acl_names::AuthId;
use std::alloc::AllocError;
use std::cmp::Ordering;

fn kind_of(row: &Row) -> u8
    ensures { result ≡ kind_of row.now }
{
    match row {
        Row::Account(_) => 0,
        Row::Global(_, _) => 1,
        Row::Dynamic(_, _) => 2,
        Row::DynamicGrant(_, _) => 3,
        Row::Schema(_, _, _) => 4,
        Row::Table(_, _, _, _) => 5,
        Row::Column(_, _, _, _, _) => 6,
        Row::Function(_, _, _, _) => 7,
        Row::Procedure(_, _, _, _) => 8,
        Row::Edge { .. } => 9,
        Row::Admin { .. } => 10,
        Row::Default { .. } => 11,
        Row::Restriction(_, _, _) => 12,
    }
}

fn first_account(row: &Row) -> &AuthId
    ensures { result.now ≡ first_account row.now }
{
    match row {
        Row::Account(a)
        | Row::Global(a, _)
        | Row::Dynamic(a, _)
        | Row::DynamicGrant(a, _)
        | Row::Schema(a, _, _)
        | Row::Table(a, _, _, _)
        | Row::Column(a, _, _, _, _)
        | Row::Function(a, _, _, _)
        | Row::Procedure(a, _, _, _)
        | Row::Edge { role: a, .. }
        | Row::Admin { role: a, .. }
        | Row::Default { of: a, .. }
        | Row::Restriction(a, _, _) => a,
    }
}

fn second_account(row: &Row) -> &AuthId
    ensures { result.now ≡ second_account row.now }
{
    match row {
        Row::Edge { to, .. } | Row::Admin { to, .. } => to,
        Row::Default { role, .. } => role,
        _ => first_account(row),
    }
}

fn leading_number(row: &Row) -> u8
    ensures { result ≡ leading_number row.now }
{
    match row {
        Row::Restriction(_, p, _) => *p,
        _ => 0,
    }
}

fn first_text(row: &Row) -> &str
    ensures { result.now ≡ first_text row.now }
{
    match row {
        Row::Schema(_, s, _)
        | Row::Table(_, s, _, _)
        | Row::Column(_, s, _, _, _)
        | Row::Function(_, s, _, _)
        | Row::Procedure(_, s, _, _)
        | Row::Restriction(_, _, s) => s.as_str(),
        _ => "",
    }
}

fn second_text(row: &Row) -> &str
    ensures { result.now ≡ second_text row.now }
{
    match row {
        Row::Table(_, _, t, _)
        | Row::Column(_, _, t, _, _)
        | Row::Function(_, _, t, _)
        | Row::Procedure(_, _, t, _) => t.as_str(),
        _ => "",
    }
}

fn third_text(row: &Row) -> &str
    ensures { result.now ≡ third_text row.now }
{
    match row {
        Row::Column(_, _, _, c, _) => c.as_str(),
        _ => "",
    }
}

fn last_number(row: &Row) -> u8
    ensures { result ≡ last_number row.now }
{
    match row {
        Row::Global(_, p)
        | Row::Dynamic(_, p)
        | Row::DynamicGrant(_, p)
        | Row::Schema(_, _, p)
        | Row::Table(_, _, _, p)
        | Row::Column(_, _, _, _, p)
        | Row::Function(_, _, _, p)
        | Row::Procedure(_, _, _, p) => *p,
        _ => 0,
    }
}

fn accounts_cmp(one: &Row, other: &Row) -> Ordering
    ensures { result ≡ accounts_cmp one.now other.now }
{
    first_account(one)
        .cmp(first_account(other))
        .then(second_account(one).cmp(second_account(other)))
}

fn texts_cmp(one: &Row, other: &Row) -> Ordering
    ensures { result ≡ texts_cmp one.now other.now }
{
    first_text(one).cmp(first_text(other)).then(
        second_text(one)
            .cmp(second_text(other))
            .then(third_text(one).cmp(third_text(other))),
    )
}

#[tactic(auto, unfolding(crate::specs::Order::row_cmp))]
fn row_cmp(one: &Row, other: &Row) -> Ordering
    ensures { result ≡ row_cmp one.now other.now }
{
    let fields = accounts_cmp(one, other).then(
        leading_number(one).cmp(&leading_number(other)).then(texts_cmp(one, other).then(last_number(
            one,
        ).cmp(&last_number(other)))),
    );
    kind_of(one).cmp(&kind_of(other)).then(fields)
}

/// Brings rows into their order, and leaves each once.
pub(crate) fn sort_rows(rows: &mut Vec<Row>) -> Result<(), AllocError>
    ensures same { OnOk result ((row : RowValue) →
        list_any (same_row row) rows.new.items ≡ list_any (same_row row) rows.old.items) }
    ensures order { OnOk result (IsStrictlySortedBy row_cmp rows.new.items) }
{
    rows.sort_by(|one, other| row_cmp(one, other))?;
    rows.dedup_by(|one, other| one.is(other));
    Ok(())
}
