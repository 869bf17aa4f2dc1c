ghost use Rattle.std.specs.Prelude.{◌≡◌};
ghost use Rattle.account_match.specs.Permitted.{first_other, is_permitted};

use acl_names::HostText;

/// From where a client comes.
///
/// MySQL 8.0 Reference Manual, "Access Control, Stage 1: Connection Verification".
#[derive(Debug, Drop)]
pub enum Client {
    /// From the server's own machine: its name is `localhost`, and it has no address.
    Local,
    /// Over the network: the address, and the name that it resolves to, which is empty where there is none.
    Tcp { address: HostText, name: HostText },
}

/// Whether a client's name is one that hosts are compared with: it is not empty, and does not begin as an address.
pub(crate) fn is_permitted(name: &[u8]) -> bool
    ensures { result ≡ is_permitted name.now }
{
    match first_other(name) {
        Some(digits) => digits == 0 || name[digits] != b'.',
        None => !name.is_empty(),
    }
}

/// The place of the first byte that is no digit.
fn first_other(name: &[u8]) -> Option<usize>
    ensures { result ≡ first_other name.now }
{
    name.iter().position(|byte| !byte.is_ascii_digit())
}
