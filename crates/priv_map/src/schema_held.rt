ghost use Rattle.std.specs.Prelude.{◌≡◌, IfOk, IsTrue};
ghost use Rattle.priv_sets.specs.StaticSet.{is_known};

use acl_items::Copied;
use acl_names::Ident;
use priv_sets::Static;
use std::alloc::{AllocError, Global};

/// What a session holds on its current schema, as it was when the session chose the schema.
///
/// MySQL 8.0 Reference Manual, "When Privilege Changes Take Effect".
#[derive(Debug, PartialEq, Eq, Drop)]
pub struct SchemaHeld {
    pub schema: Ident,
    /// The static privileges that are held on the schema itself, whatever is held on `*.*`.
    pub mask: Static,
    ghost known: { IsTrue (is_known mask) },
}

impl SchemaHeld {
    /// The same privileges in memory of their own.
    pub fn copy(&self, alloc: Global) -> Result<SchemaHeld, AllocError>
        ensures { IfOk result (λ made. made ≡ self.now) }
    {
        Ok(SchemaHeld {
            schema: self.schema.copy(alloc)?,
            mask: self.mask,
        })
    }
}

impl Copied for SchemaHeld {
    fn copied(&self, alloc: Global) -> Result<SchemaHeld, AllocError> {
        self.copy(alloc)
    }
}
