ghost use Rattle.std.specs.Prelude.{◌≡◌, IfOk, IsTrue};
ghost use Rattle.acl_stmt.specs.Privileges.{is_priv_list};

use crate::ColumnPriv;
use acl_items::{Copied, Items};
use priv_sets::Static;
use std::alloc::{AllocError, Global};

/// The privileges that a statement or a request names. With `all` it is ALL, and the rest is empty; with nothing at all it is USAGE.
///
/// MySQL 8.0 Reference Manual, "GRANT Statement".
#[derive(Debug, PartialEq, Eq, Drop)]
pub struct PrivList {
    pub all: bool,
    /// The static privileges, and GRANT OPTION, that are named without columns.
    pub plain: Static,
    /// The static privileges that are named with columns, each once, in the order of their numbers.
    pub columns: Items<ColumnPriv>,
    /// The dynamic privileges: bit i stands for the one of number i.
    pub dynamic: u32,
    ghost listed: { IsTrue (is_priv_list all plain columns dynamic) },
}

impl PrivList {
    /// The same privileges in memory of their own.
    pub fn copy(&self, alloc: Global) -> Result<PrivList, AllocError>
        ensures { IfOk result (λ made. made ≡ self.now) }
    {
        Ok(PrivList {
            all: self.all,
            plain: self.plain,
            columns: self.columns.copy(alloc)?,
            dynamic: self.dynamic,
        })
    }
}

impl Copied for PrivList {
    fn copied(&self, alloc: Global) -> Result<PrivList, AllocError> {
        self.copy(alloc)
    }
}
