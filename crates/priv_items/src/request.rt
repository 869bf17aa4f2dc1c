ghost use Rattle.std.specs.Prelude.{◌≡◌, ◌<◌, ◌^◌, ◌||◌, false, None, IfErr, IfOk, IsTrue, OnOk};
ghost use Rattle.acl_stmt.specs.Requests.{is_request};
ghost use Rattle.priv_sets.specs.Levels.{grant_option};
ghost use Rattle.priv_sets.specs.StaticSet.{holds};
ghost use Rattle.priv_items.specs.Grants.{names_grant_option, without_grant_option};
ghost use Rattle.priv_items.specs.LevelRefusals.{IsLevelRefusal, wrong_level};
ghost use Rattle.priv_items.specs.Lowered.{lowered_target};
ghost use Rattle.priv_items.specs.Meaning.{IsMeant};
ghost use Rattle.priv_items.specs.Naming.{column_count, items_in};

use crate::gather::gathered;
use crate::levels::wrong_level;
use crate::lowered::lowered_target;
use crate::{LevelRefusal, Named};
use acl_stmt::{PrivList, Request, Target};
use priv_sets::Plain;
use std::alloc::{AllocError, Global};

/// The request that names these privileges on this target. A REVOKE has the privileges and the target of it.
///
/// MySQL 8.0 Reference Manual, "REVOKE Statement".
pub fn request_of(alloc: Global, named: &Named, target: Target) -> Result<Request, LevelRefusal>
    requires { column_count (items_in named.now) < 2 ^ 32 }
    ensures privileges { IfOk result (λ request. IsMeant named.now request.privileges) }
    ensures target { IfOk result (λ request. request.target ≡ lowered_target target) }
    ensures request { IfOk result (λ request.
        IsTrue (is_request request.privileges request.target)) }
    ensures within { OnOk result (wrong_level named.now target ≡ None) }
    ensures err { IfErr result (IsLevelRefusal (wrong_level named.now target)) }
{
    if let Some(privilege) = wrong_level(named, &target) {
        return Err(LevelRefusal::WrongLevel { privilege });
    }
    fitting_request(alloc, named, target).map_err(|_| LevelRefusal::NoMemory)
}

fn fitting_request(alloc: Global, named: &Named, target: Target) -> Result<Request, AllocError>
    requires few { column_count (items_in named.now) < 2 ^ 32 }
    requires fits { wrong_level named.now target ≡ None }
    ensures privileges { IfOk result (λ request. IsMeant named.now request.privileges) }
    ensures target { IfOk result (λ request. request.target ≡ lowered_target target) }
{
    let privileges = gathered(alloc, named)?;
    let target = lowered_target(alloc, target)?;
    Ok(Request { privileges, target })
}

/// What a GRANT gives, and on what.
#[derive(Debug, Drop)]
pub struct Granted {
    /// The list never holds GRANT OPTION.
    pub privileges: PrivList,
    pub target: Target,
    /// WITH GRANT OPTION, or GRANT OPTION among the privileges.
    pub with_grant_option: bool,
}

/// What a GRANT of these privileges on this target gives.
///
/// MySQL 8.0 Reference Manual, "GRANT Statement".
pub fn granted_of(
    alloc: Global,
    named: &Named,
    target: Target,
    with_grant_option: bool,
) -> Result<Granted, LevelRefusal>
    requires { column_count (items_in named.now) < 2 ^ 32 }
    ensures privileges { IfOk result (λ granted.
        IsMeant (without_grant_option named.now) granted.privileges) }
    ensures no_option { IfOk result (λ granted. holds granted.privileges.plain grant_option ≡ false) }
    ensures option { IfOk result (λ granted. granted.with_grant_option ≡
        (with_grant_option || names_grant_option named.now)) }
    ensures target { IfOk result (λ granted. granted.target ≡ lowered_target target) }
    ensures request { IfOk result (λ granted.
        IsTrue (is_request granted.privileges granted.target)) }
    ensures within { OnOk result (wrong_level named.now target ≡ None) }
    ensures err { IfErr result (IsLevelRefusal (wrong_level named.now target)) }
{
    let Request { privileges, target } = request_of(alloc, named, target)?;
    let option = Plain::grant_option();
    Ok(Granted {
        with_grant_option: with_grant_option || privileges.plain.has(option),
        privileges: PrivList {
            plain: privileges.plain.without(option),
            all: privileges.all,
            columns: privileges.columns,
            dynamic: privileges.dynamic,
        },
        target,
    })
}
