ghost use Rattle.std.specs.Prelude.{◌≡◌, IfOk};

use acl_items::Copied;
use acl_names::Ident;
use priv_sets::Level;
use std::alloc::{AllocError, Global};

/// What a privilege is held on. The name of a schema or a table comes as it is written, that of a routine in lower ASCII case.
///
/// MySQL 8.0 Reference Manual, "GRANT Statement".
#[derive(Debug, PartialEq, Eq, Drop)]
pub enum Target {
    /// Everything, `*.*`.
    Global,
    /// All of a schema.
    Schema(Ident),
    /// A table of a schema.
    Table(Ident, Ident),
    /// A function of a schema.
    Function(Ident, Ident),
    /// A procedure of a schema.
    Procedure(Ident, Ident),
}

impl Target {
    ghost use Rattle.acl_stmt.specs.Targets.{level_of};

    /// The level at which privileges are held on the target.
    pub fn level(&self) -> Level
        ensures { result ≡ level_of self.now }
    {
        match self {
            Target::Global => Level::Global,
            Target::Schema(_) => Level::Schema,
            Target::Table(_, _) => Level::Table,
            Target::Function(_, _) | Target::Procedure(_, _) => Level::Routine,
        }
    }

    /// The same target in memory of its own.
    pub fn copy(&self, alloc: Global) -> Result<Target, AllocError>
        ensures { IfOk result (λ made. made ≡ self.now) }
    {
        Ok(match self {
            Target::Global => Target::Global,
            Target::Schema(schema) => Target::Schema(schema.copy(alloc)?),
            Target::Table(schema, table) => Target::Table(schema.copy(alloc)?, table.copy(alloc)?),
            Target::Function(schema, name) => {
                Target::Function(schema.copy(alloc)?, name.copy(alloc)?)
            }
            Target::Procedure(schema, name) => {
                Target::Procedure(schema.copy(alloc)?, name.copy(alloc)?)
            }
        })
    }
}

impl Copied for Target {
    fn copied(&self, alloc: Global) -> Result<Target, AllocError> {
        self.copy(alloc)
    }
}
