//! The rows that a statement takes, and those that it gives.
ghost use Rattle.std.specs.Prelude.{◌≡◌, IfErr, IfOk, IsTrue};
ghost use Rattle.std.specs.List.{list_any};
ghost use Rattle.acl_model.specs.Rows.{same_row};
ghost use Rattle.acl_model.specs.declared.row.Row.{Row as RowValue};
ghost use Rattle.acl_rows.specs.Tables.{state_of};
ghost use Rattle.acl_stmt.specs.declared.refusal.Refusal.TheVariants.{NoMemory};
ghost use Rattle.acl_rows.specs.Lists.{IsClosed, IsReadyAmong, with_rows, without_rows};

use acl_rows::{Row, Rows, put_all, take_all};
use acl_stmt::Refusal;
use std::alloc::Global;

/// A copy of the rows without those of a list.
pub(crate) fn rows_without(alloc: Global, before: &Rows, gone: &[Row]) -> Result<Rows, Refusal>
    requires { IsClosed (state_of before.now) gone.now }
    ensures ok { IfOk result (λ rows. state_of rows ≡ without_rows gone.now (state_of before.now)) }
    ensures err { IfErr result (λ refusal. refusal ≡ NoMemory) }
{
    let mut rows = before.copy(alloc).map_err(|_| Refusal::NoMemory)?;
    take_all(&mut rows, gone);
    Ok(rows)
}

/// The rows with those of a list.
pub(crate) fn rows_with(alloc: Global, rows: Rows, come: &[Row]) -> Result<Rows, Refusal>
    requires { (row : RowValue) → IsTrue (list_any (same_row row) come.now)
        → IsReadyAmong (state_of rows) come.now row }
    ensures ok { IfOk result (λ made. state_of made ≡ with_rows come.now (state_of rows)) }
    ensures err { IfErr result (λ refusal. refusal ≡ NoMemory) }
{
    put_all(alloc, rows, come).map_err(|_| Refusal::NoMemory)
}
