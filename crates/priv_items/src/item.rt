ghost use Rattle.std.specs.Prelude.{◌≡◌, ◌<◌, ◌^◌, ◌↔◌, IsTrue};

use crate::columns::has_few_columns;
use acl_items::Items;
use acl_names::Ident;
use priv_sets::{Dynamic, Plain};

/// One of the names between GRANT, REVOKE or a request and its ON.
#[derive(Debug, PartialEq, Eq, Drop)]
pub enum Item {
    /// A static privilege or GRANT OPTION.
    Plain(Plain),
    /// A static privilege on columns, which come as they are written.
    Columns {
        privilege: Plain,
        columns: Items<Ident>,
    },
    Dynamic(Dynamic),
    /// USAGE, which is no privilege.
    Usage,
}

/// What a statement or a request names, in the order of its text.
///
/// MySQL 8.0 Reference Manual, "GRANT Statement".
#[derive(Debug, PartialEq, Eq, Drop)]
pub enum Named {
    /// ALL, with or without PRIVILEGES.
    All,
    Listed(Items<Item>),
}

impl Named {
    ghost use Rattle.priv_items.specs.Naming.{column_count, items_in};

    /// Whether fewer than 2^32 columns are named.
    pub fn has_few_columns(&self) -> bool
        ensures { IsTrue result ↔ (column_count (items_in self.now) < 2 ^ 32) }
    {
        match self {
            Named::All => true,
            Named::Listed(items) => has_few_columns(items.as_slice()),
        }
    }
}
