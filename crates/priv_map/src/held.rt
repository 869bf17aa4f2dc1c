ghost use Rattle.std.specs.Prelude.{◌≡◌, IfOk, IsTrue};
ghost use Rattle.acl_stmt.specs.Entries.{are_limits_in_order};
ghost use Rattle.priv_sets.specs.StaticSet.{is_known};

use acl_items::{Copied, Items};
use acl_stmt::Limit;
use priv_sets::{DynSet, Static};
use std::alloc::{AllocError, Global};

/// What a session holds on `*.*`, as it was when the session read it.
///
/// MySQL 8.0 Reference Manual, "When Privilege Changes Take Effect".
#[derive(Debug, PartialEq, Eq, Drop)]
pub struct Held {
    /// The static privileges.
    pub plain: Static,
    /// The dynamic privileges, each with its grant option where that is held too.
    pub dynamic: DynSet,
    /// The static privileges that do not reach a schema, by the bytes of the schemas, each schema once.
    pub restrictions: Items<Limit>,
    ghost known: { IsTrue (is_known plain) },
    ghost ordered: { IsTrue (are_limits_in_order restrictions) },
}

impl Held {
    /// The same privileges in memory of their own.
    pub fn copy(&self, alloc: Global) -> Result<Held, AllocError>
        ensures { IfOk result (λ made. made ≡ self.now) }
    {
        Ok(Held {
            plain: self.plain,
            dynamic: self.dynamic,
            restrictions: self.restrictions.copy(alloc)?,
        })
    }
}

impl Copied for Held {
    fn copied(&self, alloc: Global) -> Result<Held, AllocError> {
        self.copy(alloc)
    }
}
