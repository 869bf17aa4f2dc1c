ghost use Rattle.std.specs.Prelude.{◌≡◌, ◌++◌, Some, IfOk, OnOk, string_bytes};
ghost use Rattle.std.proofs.Common.{rules};
ghost use Rattle.std.specs.Cmp.{partial_order_from_own_ties};
ghost use Rattle.std.specs.Cmp.Rules.{comparing};
ghost use Rattle.std.specs.Ordering.{as_partial_cmp};

use crate::host::HostText;
use crate::quoted::Quoted;
use crate::user::UserName;
use acl_items::Copied;
use std::alloc::{AllocError, Global};
use std::cmp::Ordering;
use std::fmt;

/// An account: a user at a host.
///
/// MySQL 8.0 Reference Manual, "Specifying Account Names".
#[derive(Debug, PartialEq, Eq, Hash, Drop)]
pub struct AuthId {
    pub user: UserName,
    pub host: HostText,
}

impl AuthId {
    ghost use Rattle.acl_names.specs.AuthId.{auth_text, same_auth};

    /// Whether both are one account.
    pub fn is(&self, other: &AuthId) -> bool
        ensures { result ≡ same_auth self.now other.now }
    {
        self == other
    }

    /// The same account in memory of its own.
    pub fn copy(&self, alloc: Global) -> Result<Self, AllocError>
        ensures { IfOk result (λ made. made ≡ self.now) }
    {
        let user = self.user.copy(alloc)?;
        let host = self.host.copy(alloc)?;
        Ok(AuthId { user, host })
    }

    /// Appends the account as it prints. After an error `text` may hold a part of it.
    pub fn append_to(&self, text: &mut String) -> Result<(), AllocError>
        ensures ok { OnOk result (string_bytes text.new ≡ string_bytes text.old ++ auth_text self.now) }
    {
        write!(text, "{self}")
    }
}

impl Copied for AuthId {
    fn copied(&self, alloc: Global) -> Result<Self, AllocError> {
        self.copy(alloc)
    }
}

impl fmt::Display for AuthId {
    ghost use Rattle.acl_names.specs.AuthId.{auth_text};

    ghost output = { λ account. Some (auth_text account) };

    fn fmt<W: fmt::Write>(&self, f: &mut fmt::Formatter<W>) -> fmt::Result {
        let user = Quoted(self.user.as_str());
        let host = Quoted(self.host.as_str());
        write!(f, "{user}@{host}")
    }
}

impl PartialOrd for AuthId {
    ghost use Rattle.acl_names.specs.AuthId.{auth_cmp};

    ghost partial_cmp = { as_partial_cmp auth_cmp };

    ghost laws = { partial_order_from_own_ties (Prim.search (comparing, rules)) (Prim.search (comparing, rules)) };

    fn partial_cmp(&self, other: &AuthId) -> Option<Ordering> {
        Some(self.cmp(other))
    }
}

impl Ord for AuthId {
    ghost use Rattle.acl_names.specs.AuthId.{auth_cmp};

    ghost cmp = { auth_cmp };

    ghost total = { Prim.search (comparing, rules) };

    ghost matches_partial_cmp = { Prim.search (comparing, rules) };

    ghost matches_eq = { Prim.search (comparing, rules) };

    fn cmp(&self, other: &AuthId) -> Ordering {
        self.user.cmp(&other.user).then(self.host.cmp(&other.host))
    }
}
