ghost use Rattle.std.specs.Prelude.{◌↔◌, IsTrue};
ghost use Rattle.account_match.specs.Choice.{IsChoice, IsStrictlyOrdered, Precedes};

use crate::client::Client;
use crate::listed::{Listed, is_admitted, order};
use acl_names::UserName;
use std::cmp::Ordering;

/// The place of the account that the client is let in by as `user`, among accounts in their order; none where no
/// account admits it.
///
/// MySQL 8.0 Reference Manual, "Access Control, Stage 1: Connection Verification".
pub fn choose(sorted: &[Listed], user: &UserName, client: &Client) -> Option<usize>
    requires { IsStrictlyOrdered sorted.now }
    ensures { IsChoice sorted.now user.now client.now result }
{
    for (place, listed) in sorted.iter().enumerate() {
        if is_admitted(listed, user, client) {
            return Some(place);
        }
    }
    None
}

/// Whether the accounts are in their strict order, as `choose` needs it.
pub fn is_ordered(accounts: &[Listed]) -> bool
    ensures { IsTrue result ↔ IsStrictlyOrdered accounts.now }
{
    for next in 1..accounts.len() {
        if !precedes(&accounts[next - 1], &accounts[next]) {
            return false;
        }
    }
    true
}

fn precedes(a: &Listed, b: &Listed) -> bool
    ensures { IsTrue result ↔ Precedes a.now b.now }
{
    matches!(order(a, b), Ordering::Less)
}
