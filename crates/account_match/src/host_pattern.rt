ghost use Rattle.std.specs.Prelude.{◌≡◌, ◌&&◌, IsSome, OnOk, IfOk, IfErr};
ghost use Rattle.account_match.specs.Form.{form_of};
ghost use Rattle.account_match.specs.Fits.{fits, like_client, is_in_network};
ghost use Rattle.account_match.specs.Like.{is_like};
ghost use Rattle.account_match.specs.Permitted.{is_permitted};
ghost use Rattle.account_match.specs.Order.{host_order};
ghost use Rattle.account_match.specs.Refused.{IsRefusal};

use crate::address::address_of;
use crate::client::{Client, is_permitted};
use crate::form::{Form, form_of};
use crate::wildcards::is_like;
use acl_names::HostText;
use std::alloc::Global;
use std::cmp::Ordering;
use std::marker::Model;
use thiserror::Error;

/// Why a host was not read as a pattern.
#[derive(Clone, Copy, Debug, PartialEq, Eq, Error)]
pub enum HostRefusal {
    /// The host has a `/`, and is no IPv4 address with the length of a mask or with a mask behind it.
    #[error("the host has a slash and is no address with a mask")]
    BadMask,
    /// Memory ran out; nothing is said of the host.
    #[error("out of memory")]
    NoMemory,
}

/// The host of an account, ready to be compared with clients.
///
/// MySQL 8.0 Reference Manual, "Specifying Account Names".
#[derive(Debug, Drop)]
pub struct HostPattern {
    host: HostText,
    form: Form,
}

impl Model for HostPattern {
    ghost use Rattle.std.specs.Prelude.{◌≡◌, ℕ, List, Some};
    ghost use Rattle.account_match.specs.Form.{form_of};

    ghost Value = { List ℕ };

    ghost view = { λ pattern. pattern.host };

    ghost invariant = { λ pattern. form_of pattern.host ≡ Some pattern.form };
}

impl HostPattern {
    /// Reads `host` as a pattern.
    pub fn read(alloc: Global, host: &HostText) -> Result<Self, HostRefusal>
        ensures ok { IfOk result (λ pattern. pattern ≡ host.now) }
        ensures within { OnOk result (IsSome (form_of host.now)) }
        ensures err { IfErr result (IsRefusal host.now) }
    {
        match form_of(host.as_str().as_bytes()) {
            Some(form) => {
                let host = host.copy(alloc).map_err(|_| HostRefusal::NoMemory)?;
                Ok(HostPattern { host, form })
            }
            None => Err(HostRefusal::BadMask),
        }
    }

    /// Whether the host lets the client in.
    pub fn matches(&self, client: &Client) -> bool
        ensures { result ≡ fits self.now client.now }
    {
        match self.form {
            Form::Cidr { address, mask } => is_in_network(client, address & mask, mask),
            Form::Masked { address, mask } => is_in_network(client, address, mask),
            Form::Empty => true,
            Form::Exact | Form::Wildcards { .. } | Form::AnyText => {
                is_like_client(self.host.as_str(), client)
            }
        }
    }
}

impl HostPattern {
    /// The order of the hosts: by their classes, and within a class the host that fixes more of a client first.
    pub(crate) fn compare(&self, other: &HostPattern) -> Ordering
        ensures { result ≡ host_order self.now other.now }
    {
        let classes = self.form.class().cmp(&other.form.class());
        let reaches = other.form.reach().cmp(&self.form.reach());
        let addresses = self.form.address().cmp(&other.form.address());
        let texts = self.host.cmp(&other.host);
        classes.then(reaches).then(addresses).then(texts)
    }
}

/// Whether the client's address is an IPv4 text whose bits under `mask` are those of `network`.
fn is_in_network(client: &Client, network: u32, mask: u32) -> bool
    ensures { result ≡ is_in_network network mask client.now }
{
    match client {
        Client::Local => false,
        Client::Tcp { address, .. } => match address_of(address.as_str().as_bytes()) {
            Some(bits) => bits & mask == network,
            None => false,
        },
    }
}

/// Whether the client's address or its name is like `host`.
fn is_like_client(host: &str, client: &Client) -> bool
    ensures { result ≡ like_client host.now client.now }
{
    match client {
        Client::Local => is_like(host, "localhost"),
        Client::Tcp { address, name } => {
            is_like(host, address.as_str()) || is_like_name(host, name.as_str())
        }
    }
}

fn is_like_name(host: &str, name: &str) -> bool
    ensures { result ≡ (is_permitted name.now && is_like host.now name.now) }
{
    is_permitted(name.as_bytes()) && is_like(host, name)
}
