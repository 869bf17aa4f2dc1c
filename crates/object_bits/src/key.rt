use acl_items::Copied;
use std::alloc::{AllocError, Global};

/// An object, by the numbers of its names.
#[derive(Clone, Copy, Debug, PartialEq, Eq, Hash, Drop)]
pub enum Key {
    /// The table of the schema.
    Table(u32, u32),
    /// The column of the table of the schema.
    Column(u32, u32, u32),
    /// The function of the schema.
    Function(u32, u32),
    /// The procedure of the schema.
    Procedure(u32, u32),
}

impl Copied for Key {
    fn copied(&self, _alloc: Global) -> Result<Self, AllocError> {
        Ok(*self)
    }
}
