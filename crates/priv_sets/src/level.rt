//! The levels at which a privilege is granted.

/// What a grant of a privilege speaks of.
///
/// MySQL 8.0 Reference Manual, "GRANT Statement".
#[derive(Clone, Copy, Debug, PartialEq, Eq, Hash)]
pub enum Level {
    /// A column of a table.
    Column,
    /// A table.
    Table,
    /// A function or a procedure.
    Routine,
    /// All of a schema.
    Schema,
    /// Everything, `*.*`.
    Global,
}
