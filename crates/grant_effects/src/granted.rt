//! What a GRANT of privileges names.
ghost use Rattle.std.specs.Prelude.{◌≡◌, ◌&&◌, ◌<◌, ◌==◌, IsTrue};
ghost use Rattle.acl_model.specs.Words.{gives_grant_option, is_dynamic_alone, limited};
ghost use Rattle.acl_stmt.specs.Targets.{level_of};
ghost use Rattle.priv_sets.specs.Levels.{grant_option};
ghost use Rattle.grant_effects.specs.Granted.{grants_number};

use crate::parts::GrantParts;
use acl_names::Ident;
use acl_rows::names_static;
use acl_stmt::{Limit, PrivList, Target};
use priv_sets::Plain;

fn is_dynamic_alone(privileges: &PrivList) -> bool
    ensures { result ≡ is_dynamic_alone privileges.now }
{
    !privileges.all && privileges.plain.bits() == 0 && privileges.dynamic != 0
}

fn gives_grant_option(privileges: &PrivList, target: &Target) -> bool
    ensures { result ≡ gives_grant_option privileges.now target.now }
{
    match target {
        Target::Global => !is_dynamic_alone(privileges),
        _ => true,
    }
}

fn gives_option(grant: &GrantParts, number: u8) -> bool
    ensures { result ≡ (grant.now.with_grant_option && number == grant_option
        && gives_grant_option grant.now.privileges.now grant.now.target.now) }
{
    grant.with_grant_option
        && number == Plain::grant_option().number()
        && gives_grant_option(grant.privileges, grant.target)
}

/// Whether the grant is of the static privilege of a number, GRANT OPTION where WITH GRANT OPTION means it.
#[tactic(auto, unfolding(crate::specs::Granted::grants_number))]
pub(crate) fn grants_number(grant: &GrantParts, number: u8) -> bool
    ensures granted { result ≡ grants_number grant.now.privileges.now grant.now.target.now
        grant.now.with_grant_option number }
    ensures below { IsTrue result → number < 31 }
{
    names_static(grant.privileges, grant.target.level(), number) || gives_option(grant, number)
}

/// Whether a limit restricts the privilege of a number on a schema.
pub(crate) fn is_limited(limits: &[Limit], schema: &Ident, number: u8) -> bool
    requires { number < 31 }
    ensures { result ≡ limited limits.now schema.now number }
{
    let privilege = Plain::new(number);
    limits.iter().any(|limit| schema.is(&limit.schema) && limit.privileges.has(privilege))
}
