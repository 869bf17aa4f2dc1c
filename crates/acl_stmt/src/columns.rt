ghost use Rattle.std.specs.Prelude.{◌≡◌, IfOk, IsTrue};
ghost use Rattle.acl_stmt.specs.Columns.{is_column_list};

use acl_items::{Copied, Items};
use acl_names::Ident;
use std::alloc::{AllocError, Global};

/// A privilege on columns of a table, as `SELECT (a, b)`.
#[derive(Debug, PartialEq, Eq, Drop)]
pub struct ColumnPriv {
    /// The number of the privilege, which has the column level.
    pub privilege: u8,
    /// The columns in the order in which they were first named: one or more, each once, in lower ASCII case.
    pub names: Items<Ident>,
    ghost listed: { IsTrue (is_column_list privilege names) },
}

impl ColumnPriv {
    /// The same privilege on the same columns, in memory of its own.
    pub fn copy(&self, alloc: Global) -> Result<ColumnPriv, AllocError>
        ensures { IfOk result (λ made. made ≡ self.now) }
    {
        Ok(ColumnPriv {
            privilege: self.privilege,
            names: self.names.copy(alloc)?,
        })
    }
}

impl Copied for ColumnPriv {
    fn copied(&self, alloc: Global) -> Result<ColumnPriv, AllocError> {
        self.copy(alloc)
    }
}
