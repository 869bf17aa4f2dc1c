ghost use Rattle.std.specs.Prelude.{◌≡◌, position};
ghost use Rattle.account_match.specs.Address.{address_of, mask_length};
ghost use Rattle.account_match.specs.Form.{class_of, first_slash, form_of, is_wildcard, network, plain_form, reach_of, address_in};

use crate::address::{address_of, is_mask, mask_length, mask_of};

/// What the host of an account is made of.
#[derive(Clone, Copy, Debug, PartialEq, Eq)]
pub(crate) enum Form {
    /// A text without wildcards.
    Exact,
    /// An address with the length of a mask.
    Cidr { address: u32, mask: u32 },
    /// An address with a mask.
    Masked { address: u32, mask: u32 },
    /// A pattern with so many bytes before its first wildcard.
    Wildcards { before: usize },
    /// `%` alone.
    AnyText,
    /// The empty host.
    Empty,
}

impl Form {
    /// The class of the host in the order of accounts.
    pub(crate) fn class(self) -> u8
        ensures { result ≡ class_of self }
    {
        match self {
            Form::Exact => 0,
            Form::Cidr { .. } => 1,
            Form::Masked { .. } => 2,
            Form::Wildcards { .. } => 3,
            Form::AnyText => 4,
            Form::Empty => 5,
        }
    }

    /// How much of a client the host fixes, among hosts of its class.
    pub(crate) fn reach(self) -> usize
        ensures { result ≡ reach_of self }
    {
        match self {
            Form::Cidr { mask, .. } | Form::Masked { mask, .. } => mask as usize,
            Form::Wildcards { before } => before,
            Form::Exact | Form::AnyText | Form::Empty => 0,
        }
    }

    /// The address of a host with a mask.
    pub(crate) fn address(self) -> u32
        ensures { result ≡ address_in self }
    {
        match self {
            Form::Cidr { address, .. } | Form::Masked { address, .. } => address,
            Form::Exact | Form::Wildcards { .. } | Form::AnyText | Form::Empty => 0,
        }
    }
}

/// The form of `host`; none where it has a `/` and is no address with a mask.
#[tactic(auto, unfolding(crate::specs::Form::form_of))]
pub(crate) fn form_of(host: &[u8]) -> Option<Form>
    ensures { result ≡ form_of host.now }
{
    match first_slash(host) {
        Some(at) => network(&host[..at], &host[at + 1..]),
        None => Some(plain_form(host)),
    }
}

fn first_slash(host: &[u8]) -> Option<usize>
    ensures { result ≡ first_slash host.now }
{
    host.iter().position(|byte| *byte == b'/')
}

fn first_wildcard(host: &[u8]) -> Option<usize>
    ensures { result ≡ position is_wildcard host.now }
{
    host.iter().position(|byte| *byte == b'%' || *byte == b'_')
}

fn network(address: &[u8], mask: &[u8]) -> Option<Form>
    ensures { result ≡ network (address_of address.now) (mask_length mask.now) (address_of mask.now) }
{
    let address = address_of(address)?;
    if let Some(length) = mask_length(mask) {
        let mask = mask_of(length);
        return Some(Form::Cidr { address, mask });
    }
    let mask = address_of(mask)?;
    if is_mask(mask) {
        Some(Form::Masked { address, mask })
    } else {
        None
    }
}

fn plain_form(host: &[u8]) -> Form
    ensures { result ≡ plain_form host.now }
{
    match host {
        [] => Form::Empty,
        [b'%'] => Form::AnyText,
        _ => match first_wildcard(host) {
            Some(before) => Form::Wildcards { before },
            None => Form::Exact,
        },
    }
}
