ghost use Rattle.std.specs.Prelude.{◌≡◌, IfOk};
ghost use Rattle.object_bits.specs.Seen.{seen};

use crate::Object;
use acl_names::Ident;
use std::alloc::{AllocError, Global};

/// An object, by references to its names.
#[derive(Clone, Copy, Debug)]
pub enum ObjectRef<'a> {
    /// The table of the schema.
    Table(&'a Ident, &'a Ident),
    /// The column of the table of the schema.
    Column(&'a Ident, &'a Ident, &'a Ident),
    /// The function of the schema.
    Function(&'a Ident, &'a Ident),
    /// The procedure of the schema.
    Procedure(&'a Ident, &'a Ident),
}

impl ObjectRef<'_> {
    /// The object with its names in memory of their own.
    pub fn copied(self, alloc: Global) -> Result<Object, AllocError>
        ensures { IfOk result (λ made. made ≡ seen self.entry) }
    {
        Ok(match self {
            ObjectRef::Table(schema, table) => Object::Table(
                schema.copy(alloc)?,
                table.copy(alloc)?,
            ),
            ObjectRef::Column(schema, table, column) => Object::Column(
                schema.copy(alloc)?,
                table.copy(alloc)?,
                column.copy(alloc)?,
            ),
            ObjectRef::Function(schema, function) => Object::Function(
                schema.copy(alloc)?,
                function.copy(alloc)?,
            ),
            ObjectRef::Procedure(schema, procedure) => Object::Procedure(
                schema.copy(alloc)?,
                procedure.copy(alloc)?,
            ),
        })
    }
}
