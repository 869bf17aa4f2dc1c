//! The restrictions that a GRANT on `*.*` hands on.
ghost use Rattle.std.specs.Prelude.{◌≡◌, ◌&&◌, ◌<◌, not, IfOk, OnOk};
ghost use Rattle.acl_names.specs.AuthId.{same_auth};
ghost use Rattle.acl_model.specs.Rows.{holder, same_row};
ghost use Rattle.acl_model.specs.declared.row.Row.TheVariants.{Global as GlobalRow, Restriction as RestrictionRow, Schema as SchemaRow};
ghost use Rattle.acl_rows.specs.Tables.{state_of};
ghost use Rattle.priv_sets.specs.StaticSet.{holds};
ghost use Rattle.grant_effects.specs.Granted.{grants_number};
ghost use Rattle.grant_effects.specs.Given.{limit_gives, restriction_given};
ghost use Rattle.grant_effects.specs.Lists.{Adds};

use crate::granted::grants_number;
use crate::held::is_held;
use crate::parts::GrantParts;
use acl_names::{AuthId, Ident};
use acl_rows::{Row, Rows};
use acl_stmt::{Limit, Target};
use priv_sets::Plain;
use std::alloc::{AllocError, Global};

/// Adds the restrictions that the limits hand on to an account.
pub(crate) fn add_restrictions(
    alloc: Global,
    before: &Rows,
    limits: &[Limit],
    grant: &GrantParts,
    account: &AuthId,
    rows: &mut Vec<Row>,
) -> Result<(), AllocError>
    ensures { OnOk result (Adds (λ row. same_auth (holder row) account.now
        && restriction_given (state_of before.now) limits.now grant.now.privileges.now
        grant.now.target.now grant.now.with_grant_option row)
        rows.old.items rows.new.items) }
{
    for limit in limits {
        add_limit(alloc, before, limit, grant, account, rows)?;
    }
    Ok(())
}

fn add_limit(
    alloc: Global,
    before: &Rows,
    limit: &Limit,
    grant: &GrantParts,
    account: &AuthId,
    rows: &mut Vec<Row>,
) -> Result<(), AllocError>
    ensures { OnOk result (Adds (λ row. same_auth (holder row) account.now
        && limit_gives (state_of before.now) grant.now.privileges.now grant.now.target.now
        grant.now.with_grant_option row limit.now)
        rows.old.items rows.new.items) }
{
    for number in 0..31 {
        add_restriction(alloc, before, limit, grant, account, number, rows)?;
    }
    Ok(())
}

fn add_restriction(
    alloc: Global,
    before: &Rows,
    limit: &Limit,
    grant: &GrantParts,
    account: &AuthId,
    number: u8,
    rows: &mut Vec<Row>,
) -> Result<(), AllocError>
    requires { number < 31 }
    ensures { OnOk result (Adds (λ row. limit_gives
        (state_of before.now) grant.now.privileges.now grant.now.target.now
        grant.now.with_grant_option
        (RestrictionRow account.now number limit.now.schema) limit.now && same_row row
        (RestrictionRow account.now number limit.now.schema))
        rows.old.items rows.new.items) }
{
    if !gives_restriction(alloc, before, limit, grant, account, number)? {
        return Ok(());
    }
    let restriction = Row::Restriction(account.copy(alloc)?, number, limit.schema.copy(alloc)?);
    rows.push(restriction)?;
    Ok(())
}

fn gives_restriction(
    alloc: Global,
    before: &Rows,
    limit: &Limit,
    grant: &GrantParts,
    account: &AuthId,
    number: u8,
) -> Result<bool, AllocError>
    requires { number < 31 }
    ensures { IfOk result (λ gives. gives ≡ limit_gives
        (state_of before.now) grant.now.privileges.now grant.now.target.now
        grant.now.with_grant_option
        (RestrictionRow account.now number limit.now.schema) limit.now) }
{
    let Target::Global = grant.target else {
        return Ok(false);
    };
    if !is_granted(limit, grant, number) {
        return Ok(false);
    }
    is_new(alloc, before, account, &limit.schema, number)
}

// Whether the limit speaks of a privilege that is granted.
fn is_granted(limit: &Limit, grant: &GrantParts, number: u8) -> bool
    requires { number < 31 }
    ensures { result ≡ (holds limit.now.privileges number
        && grants_number grant.now.privileges.now grant.now.target.now grant.now.with_grant_option
        number) }
{
    limit.privileges.has(Plain::new(number)) && grants_number(grant, number)
}

// Whether the account holds the privilege neither on `*.*` nor on the schema.
fn is_new(
    alloc: Global,
    before: &Rows,
    account: &AuthId,
    schema: &Ident,
    number: u8,
) -> Result<bool, AllocError>
    ensures { IfOk result (λ new. new ≡ (not ((state_of before.now).rows
        (GlobalRow account.now number))
        && not ((state_of before.now).rows (SchemaRow account.now schema.now number)))) }
{
    if is_held(before, Row::Global(account.copy(alloc)?, number)) {
        return Ok(false);
    }
    let schema = schema.copy(alloc)?;
    Ok(!is_held(before, Row::Schema(account.copy(alloc)?, schema, number)))
}
