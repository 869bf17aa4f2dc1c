//! Which columns a list names.
ghost use Rattle.std.specs.Prelude.{◌≡◌, ◌==◌, ◌&&◌};
ghost use Rattle.std.specs.List.{list_any};
ghost use Rattle.acl_names.specs.Text.{text_eq};
ghost use Rattle.acl_model.specs.Words.{names_column};

use acl_names::Ident;
use acl_stmt::{ColumnPriv, PrivList};

fn has_name(names: &[Ident], column: &Ident) -> bool
    ensures { result ≡ list_any (text_eq column.now) names.now }
{
    names.iter().any(|name| column.is(name))
}

fn is_on_column(listed: &ColumnPriv, number: u8, column: &Ident) -> bool
    ensures { result ≡ (listed.now.privilege == number && list_any (text_eq column.now) listed.now.names) }
{
    listed.privilege == number && has_name(listed.names.as_slice(), column)
}

/// Whether the list names the privilege of a number on a column.
pub(crate) fn names_column(privileges: &PrivList, number: u8, column: &Ident) -> bool
    ensures { result ≡ names_column privileges.now number column.now }
{
    privileges
        .columns
        .as_slice()
        .iter()
        .any(|listed| is_on_column(listed, number, column))
}
