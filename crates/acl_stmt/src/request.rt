ghost use Rattle.std.specs.Prelude.{◌≡◌, IfOk, IsTrue};
ghost use Rattle.acl_stmt.specs.Requests.{is_request};

use crate::{PrivList, Target};
use acl_items::Copied;
use std::alloc::{AllocError, Global};

/// Privileges on a target, each with the level of the target.
///
/// MySQL 8.0 Reference Manual, "Access Control, Stage 2: Request Verification".
#[derive(Debug, PartialEq, Eq, Drop)]
pub struct Request {
    pub privileges: PrivList,
    pub target: Target,
    ghost fits: { IsTrue (is_request privileges target) },
}

impl Request {
    /// The same request in memory of its own.
    pub fn copy(&self, alloc: Global) -> Result<Request, AllocError>
        ensures { IfOk result (λ made. made ≡ self.now) }
    {
        Ok(Request {
            privileges: self.privileges.copy(alloc)?,
            target: self.target.copy(alloc)?,
        })
    }
}

impl Copied for Request {
    fn copied(&self, alloc: Global) -> Result<Request, AllocError> {
        self.copy(alloc)
    }
}
