//! The check of a request: the first of its needs that is not met.
ghost use Rattle.std.specs.Prelude.{◌≡◌, ◌<◌, ◌^◌, ◌&&◌, not, None, length};
ghost use Rattle.std.specs.Option.{option_copied, option_map};
ghost use Rattle.acl_model.specs.Rights.{holds_on_column, holds_on_schema, holds_on_table};
ghost use Rattle.acl_model.specs.State.{State};
ghost use Rattle.acl_model.specs.Verdict.{columns_from, dynamic_needs, is_on_target, met_by_object, needs_below, needs_of, schema_of, static_needs};
ghost use Rattle.acl_model.specs.Words.{limited, names_static};
ghost use Rattle.acl_rows.specs.Tables.{state_of};
ghost use Rattle.acl_stmt.specs.Targets.{level_of};
ghost use Rattle.acl_stmt.specs.declared.target.Target.TheVariants.{Table as TableTarget};
ghost use Rattle.priv_map.specs.Copies.{asks_dynamic, by_mask, column_needs, columns_needs, first_missing, held_on_column, is_limited, is_there, met_on_schema, missing_at, unplaced};
ghost use Rattle.priv_map.specs.Readings.{reading_of, sources_of};
ghost use Rattle.priv_sets.specs.DynamicSet.{holds_dynamic};
ghost use Rattle.priv_sets.specs.declared.privilege.Privilege.TheVariants.{Dynamic as DynamicPrivilege, Plain as PlainPrivilege};

use crate::{Acting, SchemaHeld};
use acl_names::Ident;
use acl_rows::{Rows, names_dynamic, names_static};
use acl_stmt::{ColumnPriv, Limit, Missing, PrivList, Request, Target, Why};
use priv_sets::{Dynamic, Plain, Privilege};

/// The first privilege of a request that is missing: the static ones in their order, each without columns first and then on
/// the columns as they are asked for, and the dynamic ones after them.
pub(crate) fn first_missing(rows: &Rows, acting: &Acting, request: &Request) -> Option<Missing>
    ensures { result ≡ first_missing acting.now (state_of rows.now) request.now.target
        (needs_of request.now.privileges request.now.target) }
{
    if let Some(missing) = missing_static(rows, acting, request) {
        return Some(missing);
    }
    missing_dynamic(acting, request)
}

fn missing_static(rows: &Rows, acting: &Acting, request: &Request) -> Option<Missing>
    ensures { result ≡ first_missing acting.now (state_of rows.now) request.now.target
        (needs_below (static_needs request.now.privileges request.now.target) 31) }
{
    for number in 0..31 {
        if let Some(missing) = missing_of(rows, acting, request, Plain::new(number)) {
            return Some(missing);
        }
    }
    None
}

fn missing_dynamic(acting: &Acting, request: &Request) -> Option<Missing>
    ensures { (now : State) → result ≡ first_missing acting.now now request.now.target
        (needs_below (dynamic_needs request.now.privileges request.now.target) 20) }
{
    for number in 0..20 {
        if let Some(missing) = missing_dynamic_of(acting, request, Dynamic::new(number)) {
            return Some(missing);
        }
    }
    None
}

fn missing_dynamic_of(acting: &Acting, request: &Request, privilege: Dynamic) -> Option<Missing>
    ensures { (now : State) → result ≡ first_missing acting.now now request.now.target
        (dynamic_needs request.now.privileges request.now.target privilege) }
{
    if lacks_dynamic(acting, request, privilege) {
        return Some(missing(acting, &request.target, Privilege::Dynamic(privilege), None));
    }
    None
}

fn lacks_dynamic(acting: &Acting, request: &Request, privilege: Dynamic) -> bool
    ensures { result ≡ (asks_dynamic request.now.privileges request.now.target privilege
        && not (holds_dynamic acting.now.held.dynamic privilege)) }
{
    asks_dynamic(request, privilege) && !acting.held.dynamic.has(privilege)
}

fn asks_dynamic(request: &Request, privilege: Dynamic) -> bool
    ensures { result ≡ asks_dynamic request.now.privileges request.now.target privilege }
{
    match &request.target {
        Target::Global => names_dynamic(&request.privileges, privilege.number()),
        _ => false,
    }
}

fn asks_static(request: &Request, privilege: Plain) -> bool
    ensures { result ≡ names_static request.now.privileges (level_of request.now.target) privilege }
{
    names_static(
        &request.privileges,
        request.target.level(),
        privilege.number(),
    )
}

fn missing_of(rows: &Rows, acting: &Acting, request: &Request, privilege: Plain) -> Option<Missing>
    ensures { result ≡ first_missing acting.now (state_of rows.now) request.now.target
        (static_needs request.now.privileges request.now.target privilege) }
{
    if lacks_static(rows, acting, request, privilege) {
        return Some(missing(acting, &request.target, Privilege::Plain(privilege), None));
    }
    missing_on_columns(rows, acting, request, privilege)
}

// Whether it is asked for without columns, and is not there.
fn lacks_static(rows: &Rows, acting: &Acting, request: &Request, privilege: Plain) -> bool
    ensures { result ≡ (names_static request.now.privileges (level_of request.now.target) privilege
        && not (is_there acting.now (state_of rows.now) request.now.target
        (PlainPrivilege privilege) None)) }
{
    asks_static(request, privilege) && !is_met(rows, acting, &request.target, privilege, None)
}

fn missing_on_columns(
    rows: &Rows,
    acting: &Acting,
    request: &Request,
    privilege: Plain,
) -> Option<Missing>
    ensures { result ≡ first_missing acting.now (state_of rows.now) request.now.target
        (columns_needs privilege request.now.privileges.columns) }
{
    for columns in request.privileges.columns.as_slice() {
        if let Some(missing) = missing_in_list(rows, acting, &request.target, privilege, columns) {
            return Some(missing);
        }
    }
    None
}

fn missing_in_list(
    rows: &Rows,
    acting: &Acting,
    target: &Target,
    privilege: Plain,
    columns: &ColumnPriv,
) -> Option<Missing>
    ensures { result ≡ first_missing acting.now (state_of rows.now) target.now
        (column_needs privilege columns.now) }
{
    if columns.privilege != privilege.number() {
        return None;
    }
    missing_among(rows, acting, target, privilege, columns.names.as_slice())
}

fn missing_among(
    rows: &Rows,
    acting: &Acting,
    target: &Target,
    privilege: Plain,
    names: &[Ident],
) -> Option<Missing>
    requires { length names.now < 2 ^ 32 }
    ensures { result ≡ first_missing acting.now (state_of rows.now) target.now
        (columns_from privilege 0 names.now) }
{
    for (place, name) in names.iter().enumerate() {
        if !is_met(rows, acting, target, privilege, Some(name)) {
            return Some(missing(
                acting,
                target,
                Privilege::Plain(privilege),
                Some(place as u32),
            ));
        }
    }
    None
}

fn missing(acting: &Acting, target: &Target, privilege: Privilege, column: Option<u32>) -> Missing
    ensures { result ≡ missing_at acting.now target.now privilege column }
{
    let why = if is_limited(acting, target, &privilege) {
        Why::Restricted
    } else {
        Why::NoGrant
    };
    Missing {
        privilege,
        on_target: is_on_target(target),
        column,
        why,
    }
}

fn is_on_target(target: &Target) -> bool
    ensures { result ≡ is_on_target target.now }
{
    !matches!(target, Target::Global)
}

// The schema that the target is or stands in.
fn schema_of(target: &Target) -> Option<&Ident>
    ensures { option_copied result ≡ schema_of target.now }
{
    match target {
        Target::Global => None,
        Target::Schema(schema)
        | Target::Table(schema, _)
        | Target::Function(schema, _)
        | Target::Procedure(schema, _) => Some(schema),
    }
}

fn is_limited(acting: &Acting, target: &Target, privilege: &Privilege) -> bool
    ensures { result ≡ is_limited acting.now target.now privilege.now }
{
    let Some(schema) = schema_of(target) else {
        return false;
    };
    match privilege {
        Privilege::Plain(plain) => is_among(acting.held.restrictions.as_slice(), schema, *plain),
        Privilege::Dynamic(_) => false,
    }
}

fn is_among(limits: &[Limit], schema: &Ident, privilege: Plain) -> bool
    ensures { result ≡ limited limits.now schema.now privilege }
{
    limits.iter().any(|limit| schema.is(&limit.schema) && limit.privileges.has(privilege))
}

fn is_met(
    rows: &Rows,
    acting: &Acting,
    target: &Target,
    privilege: Plain,
    column: Option<&Ident>,
) -> bool
    ensures { result ≡ is_there acting.now (state_of rows.now) target.now (PlainPrivilege privilege)
        (option_map unplaced (option_copied column.entry)) }
{
    if acting.held.plain.has(privilege)
        && !is_limited(acting, target, &Privilege::Plain(privilege))
    {
        return true;
    }
    is_met_on_schema(rows, acting, target, privilege)
        || is_met_on_object(rows, acting, target, privilege, column)
}

fn is_met_on_schema(rows: &Rows, acting: &Acting, target: &Target, privilege: Plain) -> bool
    ensures { result ≡ met_on_schema acting.now (state_of rows.now) (schema_of target.now) privilege }
{
    let Some(schema) = schema_of(target) else {
        return false;
    };
    match &acting.current {
        Some(held) if held.schema.is(schema) => held.mask.has(privilege),
        _ => rows.holds_on_schema(&acting.account, schema, privilege.number()),
    }
}

fn is_met_on_object(
    rows: &Rows,
    acting: &Acting,
    target: &Target,
    privilege: Plain,
    column: Option<&Ident>,
) -> bool
    ensures { result ≡ met_by_object (reading_of (state_of rows.now) acting.now) target.now privilege
        (option_map unplaced (option_copied column.entry)) }
{
    let account = &acting.account;
    let number = privilege.number();
    match target {
        Target::Global | Target::Schema(_) => false,
        Target::Table(schema, table) => {
            rows.holds_on_table(account, schema, table, number)
                || is_met_on_column(rows, acting, schema, table, column, privilege)
        }
        Target::Function(schema, name) => rows.holds_on_function(account, schema, name, number),
        Target::Procedure(schema, name) => rows.holds_on_procedure(account, schema, name, number),
    }
}

fn is_met_on_column(
    rows: &Rows,
    acting: &Acting,
    schema: &Ident,
    table: &Ident,
    column: Option<&Ident>,
    privilege: Plain,
) -> bool
    ensures { result ≡ held_on_column (state_of rows.now) acting.now schema.now table.now
        (option_copied column.entry) privilege }
{
    match column {
        Some(column) => {
            rows.holds_on_column(&acting.account, schema, table, column, privilege.number())
        }
        None => false,
    }
}
