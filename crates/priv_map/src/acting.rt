ghost use Rattle.std.specs.Prelude.{◌≡◌, IfOk};

use crate::{Held, SchemaHeld};
use acl_items::{Copied, Items};
use acl_names::AuthId;
use std::alloc::{AllocError, Global};

/// Whom a session acts for, and what it has read of its privileges.
///
/// MySQL 8.0 Reference Manual, "When Privilege Changes Take Effect".
#[derive(Debug, PartialEq, Eq, Drop)]
pub struct Acting {
    /// The account that the session was logged in to.
    pub account: AuthId,
    /// The active roles.
    pub roles: Items<AuthId>,
    /// The global level.
    pub held: Held,
    /// The current schema; None before one is chosen.
    pub current: Option<SchemaHeld>,
}

impl Acting {
    /// The same in memory of its own.
    pub fn copy(&self, alloc: Global) -> Result<Acting, AllocError>
        ensures { IfOk result (λ made. made ≡ self.now) }
    {
        Ok(Acting {
            account: self.account.copy(alloc)?,
            roles: self.roles.copy(alloc)?,
            held: self.held.copy(alloc)?,
            current: Copied::copied(&self.current, alloc)?,
        })
    }
}

impl Copied for Acting {
    fn copied(&self, alloc: Global) -> Result<Acting, AllocError> {
        self.copy(alloc)
    }
}
