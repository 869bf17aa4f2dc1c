use crate::globals::GlobalKind;
use acl_names::Ident;
use object_bits::Object;

/// One thing that an account holds. A first number is that of the account, a last one that of the privilege.
///
/// MySQL 8.0 Reference Manual, "Grant Tables".
#[derive(Debug, Drop)]
pub enum Holding {
    /// A privilege on `*.*`, of a kind.
    OnAll(GlobalKind, u32, u8),
    /// A privilege on a schema.
    OnSchema(u32, Ident, u8),
    /// A schema that a privilege on `*.*` does not reach.
    Restricted(u32, Ident, u8),
    /// A privilege on a table, a column or a routine.
    OnObject(u32, Object, u8),
    /// A role, and the account to which it is granted.
    Edge(u32, u32),
    /// A role, and an account that may grant it.
    Admin(u32, u32),
    /// An account, and a default role of it.
    Default(u32, u32),
}
