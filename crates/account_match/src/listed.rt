ghost use Rattle.std.specs.Prelude.{◌≡◌};
ghost use Rattle.account_match.specs.Order.{account_order, user_order};
ghost use Rattle.account_match.specs.Admitted.{is_admitted, is_user};

use crate::client::Client;
use crate::host_pattern::HostPattern;
use acl_names::{AuthId, UserName};
use std::cmp::Ordering;

/// An account with its host as a pattern.
#[derive(Debug, Drop)]
pub struct Listed {
    pub auth: AuthId,
    pub pattern: HostPattern,
    pub ghost own: { pattern ≡ auth.host },
}

/// The order in which accounts are tried: the more of a client the host fixes, the earlier, and at one host a named
/// user before the blank one.
///
/// MySQL 8.0 Reference Manual, "Access Control, Stage 1: Connection Verification".
pub fn order(a: &Listed, b: &Listed) -> Ordering
    ensures { result ≡ account_order a.now.auth b.now.auth }
{
    let hosts = a.pattern.compare(&b.pattern);
    hosts.then(compare_users(&a.auth.user, &b.auth.user))
}

fn compare_users(a: &UserName, b: &UserName) -> Ordering
    ensures { result ≡ user_order a.now b.now }
{
    let blanks = a.as_str().is_empty().cmp(&b.as_str().is_empty());
    blanks.then(a.cmp(b))
}

pub(crate) fn is_admitted(listed: &Listed, user: &UserName, client: &Client) -> bool
    ensures { result ≡ is_admitted user.now client.now listed.now.auth }
{
    is_user(&listed.auth.user, user) && listed.pattern.matches(client)
}

fn is_user(named: &UserName, user: &UserName) -> bool
    ensures { result ≡ is_user named.now user.now }
{
    named == user || named.as_str().is_empty()
}
