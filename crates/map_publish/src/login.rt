ghost use Rattle.std.specs.Prelude.{◌≡◌, IfOk};

use acl_items::Copied;
use acl_names::AuthId;
use priv_map::Acting;
use std::alloc::{AllocError, Global};

/// What a login is answered with.
///
/// MySQL 8.0 Reference Manual, "Access Control, Stage 1: Connection Verification".
#[derive(Debug, PartialEq, Eq, Drop)]
pub struct Login {
    /// Whom the session acts for, and what it read.
    pub acting: Acting,
    /// The account as CURRENT_USER() shows it.
    pub shown: AuthId,
    /// How many statements had been accepted.
    pub position: u32,
}

impl Login {
    /// The same in memory of its own.
    pub fn copy(&self, alloc: Global) -> Result<Login, AllocError>
        ensures { IfOk result (λ made. made ≡ self.now) }
    {
        Ok(Login {
            acting: self.acting.copy(alloc)?,
            shown: self.shown.copy(alloc)?,
            position: self.position,
        })
    }
}

impl Copied for Login {
    fn copied(&self, alloc: Global) -> Result<Login, AllocError> {
        self.copy(alloc)
    }
}
