ghost use Rattle.std.specs.Prelude.{◌≡◌};
ghost use Rattle.object_bits.specs.Seen.{seen};

use crate::ObjectRef;
use acl_names::Ident;

/// A table, a column, a function or a procedure, by the name of its schema and its own names.
///
/// MySQL 8.0 Reference Manual, "Grant Tables".
#[derive(Debug, PartialEq, Eq, Hash, Drop)]
pub enum Object {
    /// The table of the schema.
    Table(Ident, Ident),
    /// The column of the table of the schema.
    Column(Ident, Ident, Ident),
    /// The function of the schema.
    Function(Ident, Ident),
    /// The procedure of the schema.
    Procedure(Ident, Ident),
}

impl Object {
    /// The object by references to its names.
    pub fn by_reference(&self) -> ObjectRef<'_>
        ensures { seen result ≡ self.now }
    {
        match self {
            Object::Table(schema, table) => ObjectRef::Table(schema, table),
            Object::Column(schema, table, column) => ObjectRef::Column(schema, table, column),
            Object::Function(schema, function) => ObjectRef::Function(schema, function),
            Object::Procedure(schema, procedure) => ObjectRef::Procedure(schema, procedure),
        }
    }
}
