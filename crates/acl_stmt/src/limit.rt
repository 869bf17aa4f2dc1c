ghost use Rattle.std.specs.Prelude.{◌≡◌, IfOk, IsTrue};
ghost use Rattle.acl_stmt.specs.Limits.{is_limit};

use acl_items::Copied;
use acl_names::Ident;
use priv_sets::Static;
use std::alloc::{AllocError, Global};

/// A schema on which privileges that are granted on `*.*` stay restricted, since the grantor's own are.
///
/// MySQL 8.0 Reference Manual, "Privilege Restriction Using Partial Revokes".
#[derive(Debug, PartialEq, Eq, Drop)]
pub struct Limit {
    pub schema: Ident,
    /// One privilege or more, each with the schema level.
    pub privileges: Static,
    ghost restricts: { IsTrue (is_limit privileges) },
}

impl Limit {
    /// The same limit in memory of its own.
    pub fn copy(&self, alloc: Global) -> Result<Limit, AllocError>
        ensures { IfOk result (λ made. made ≡ self.now) }
    {
        Ok(Limit {
            schema: self.schema.copy(alloc)?,
            privileges: self.privileges,
        })
    }
}

impl Copied for Limit {
    fn copied(&self, alloc: Global) -> Result<Limit, AllocError> {
        self.copy(alloc)
    }
}
