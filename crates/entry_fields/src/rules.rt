//! Rules between the parts of an entry.

ghost use Rattle.std.specs.Prelude.{◌≡◌, ◌<◌, ◌&&◌, ℕ, IsTrue};
ghost use Rattle.std.specs.List.{list_all};
ghost use Rattle.acl_stmt.specs.Entries.{is_complete, limits_fit, may_have_limits, names_globally};
ghost use Rattle.acl_stmt.specs.Limits.{is_limit};
ghost use Rattle.entry_fields.specs.Rules.{is_behind};
ghost use Rattle.priv_sets.specs.StaticSet.{holds, is_known};

use acl_names::Ident;
use acl_stmt::{Limit, PrivList, Statement, Target};
use priv_sets::{Level, Static};

/// Whether a limit may be on these privileges: one or more, each with the schema level.
pub fn may_restrict(privileges: Static) -> bool
    requires { IsTrue (is_known privileges) }
    ensures { result ≡ is_limit privileges }
{
    let schema_level = Static::at_level(Level::Schema);
    privileges.bits() != 0 && Static::first_missing(privileges, schema_level).is_none()
}

/// Whether the schema comes after that of the last limit.
pub fn comes_behind(limits: &[Limit], schema: &Ident) -> bool
    ensures { result ≡ is_behind limits.now schema.now }
{
    match limits.last() {
        Some(limit) => limit.schema < *schema,
        None => true,
    }
}

/// Whether the statement names its account, and may hand on these limits.
pub fn may_stand(limits: &[Limit], statement: &Statement) -> bool
    ensures { result ≡ (is_complete statement.now && may_have_limits limits.now statement.now) }
{
    match statement {
        Statement::SetPassword { account: None, .. } => false,
        Statement::Grant {
            privileges,
            target: Target::Global,
            ..
        } => all_fit(privileges, limits),
        _ => limits.is_empty(),
    }
}

fn all_fit(privileges: &PrivList, limits: &[Limit]) -> bool
    ensures { result ≡ list_all (limits_fit privileges.now) limits.now }
{
    limits.iter().all(|limit| fits(privileges, limit))
}

// Whether the limit is on privileges alone that a grant of the list on `*.*` gives.
fn fits(privileges: &PrivList, limit: &Limit) -> bool
    ensures { result ≡ limits_fit privileges.now limit.now }
{
    Static::first_missing(limit.privileges, given_globally(privileges)).is_none()
}

// The static privileges that a grant of the list on `*.*` gives.
fn given_globally(privileges: &PrivList) -> Static
    ensures { (number : ℕ) → number < 31 → holds result number ≡ names_globally privileges.now number }
{
    if privileges.all {
        Static::all_at_level(Level::Global).union(privileges.plain)
    } else {
        privileges.plain
    }
}
