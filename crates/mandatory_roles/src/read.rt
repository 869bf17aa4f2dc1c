ghost use Rattle.std.specs.Prelude.{◌≡◌, is_some, IfOk};
ghost use Rattle.account_match.specs.Form.{form_of};
ghost use Rattle.grant_lex.specs.Value.{value_of};
ghost use Rattle.mandatory_roles.specs.Roles.{host_of, role_of, roles_in, user_of};
ghost use Rattle.mandatory_roles.specs.Spelling.{IsReadAs};

use crate::cutting::{past_mark, written_at};
use account_match::{HostPattern, HostRefusal};
use acl_items::Items;
use acl_names::{AuthId, HOST_LIMIT, HostText, NameRefusal, USER_LIMIT, UserName};
use grant_lex::value_of;
use std::alloc::{AllocError, Global};

/// The most names that a list may have, repeats counted.
pub const ROLE_LIMIT: usize = 4096;

/// The roles that `text` spells, in order and with repeats; None where it spells no list of roles.
///
/// MySQL 8.0 Reference Manual, "mandatory_roles" and "Specifying Role Names".
pub fn read_roles(alloc: Global, text: &str) -> Result<Option<Items<AuthId>>, AllocError>
    ensures { IfOk result (λ roles. IsReadAs text.now roles) }
{
    roles_in(alloc, text)
}

/// The roles in `text`, from left to right.
fn roles_in(alloc: Global, text: &str) -> Result<Option<Items<AuthId>>, AllocError>
    ensures { IfOk result (λ roles. roles ≡ roles_in text.now) }
{
    let mut roles = Items::new(alloc);
    if text.is_empty() {
        return Ok(Some(roles));
    }
    let mut rest = text;
    for _role in 0..ROLE_LIMIT {
        let Some(written) = written_at(rest) else {
            return Ok(None);
        };
        let Some(role) = role_of(alloc, written.name, written.host)? else {
            return Ok(None);
        };
        roles.push(role)?;
        if written.rest.is_empty() {
            return Ok(Some(roles));
        }
        let Some(more) = past_mark(written.rest, b',') else {
            return Ok(None);
        };
        rest = more;
    }
    Ok(None)
}

/// The role whose name and host are written so.
fn role_of(alloc: Global, name: &str, host: &str) -> Result<Option<AuthId>, AllocError>
    ensures { IfOk result (λ role. role ≡ role_of name.now host.now) }
{
    let name = value_of(alloc, name)?;
    let Some(user) = user_of(alloc, name.as_str())? else {
        return Ok(None);
    };
    let host = value_of(alloc, host)?;
    let Some(host) = host_of(alloc, host.as_str())? else {
        return Ok(None);
    };
    Ok(Some(AuthId { user, host }))
}

fn user_of(alloc: Global, name: &str) -> Result<Option<UserName>, AllocError>
    ensures { IfOk result (λ user. user ≡ user_of name.now) }
{
    // A character has four bytes at most.
    if name.is_empty() || name.len() > 4 * USER_LIMIT as usize {
        return Ok(None);
    }
    match UserName::read(alloc, name) {
        Ok(user) => Ok(Some(user)),
        Err(NameRefusal::NoMemory) => Err(AllocError),
        Err(_) => Ok(None),
    }
}

fn host_of(alloc: Global, text: &str) -> Result<Option<HostText>, AllocError>
    ensures { IfOk result (λ host. host ≡ host_of text.now) }
{
    if text.len() > 4 * HOST_LIMIT as usize {
        return Ok(None);
    }
    match HostText::read(alloc, text) {
        Ok(host) => {
            if is_pattern(alloc, &host)? {
                Ok(Some(host))
            } else {
                Ok(None)
            }
        }
        Err(NameRefusal::NoMemory) => Err(AllocError),
        Err(_) => Ok(None),
    }
}

/// Whether the host can be compared with clients.
fn is_pattern(alloc: Global, host: &HostText) -> Result<bool, AllocError>
    ensures { IfOk result (λ answer. answer ≡ is_some (form_of host.now)) }
{
    match HostPattern::read(alloc, host) {
        Ok(_) => Ok(true),
        Err(HostRefusal::BadMask) => Ok(false),
        Err(HostRefusal::NoMemory) => Err(AllocError),
    }
}
