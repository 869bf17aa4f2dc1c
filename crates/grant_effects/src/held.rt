//! Whether rows stand.
ghost use Rattle.std.specs.Prelude.{◌≡◌};
ghost use Rattle.acl_rows.specs.Tables.{state_of};

use acl_rows::{Row, Rows};

/// Whether the row, which is made for this question, stands.
pub(crate) fn is_held(before: &Rows, row: Row) -> bool
    ensures { result ≡ (state_of before.now).rows row }
{
    before.held(&row)
}
