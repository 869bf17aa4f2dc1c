ghost use Rattle.std.specs.Prelude.{◌≡◌, ◌&&◌, ◌++◌, IfOk, OnOk};
ghost use Rattle.std.specs.List.{list_any};
ghost use Rattle.acl_model.specs.Rows.{lists, same_row, some_name};
ghost use Rattle.acl_model.specs.declared.row.Row.{Row as RowValue};
ghost use Rattle.row_tables.specs.Tables.{state_of};

use crate::rows::Rows;
use acl_model::Row;
use acl_names::AuthId;
use std::alloc::{AllocError, Global};

/// The standing rows that name one of the accounts, as their holder or as a role, in no order.
pub fn rows_naming_any(
    alloc: Global,
    rows: &Rows,
    accounts: &[AuthId],
) -> Result<Vec<Row>, AllocError>
    ensures { IfOk result (λ found. (row : RowValue) → list_any (same_row row) found.items
        ≡ ((state_of rows.now).rows row && some_name (lists accounts.now) row)) }
{
    let mut found = Vec::new(alloc);
    for account in accounts {
        add_all(
            alloc,
            &mut found,
            rows.rows_naming(alloc, account)?.as_slice(),
        )?;
    }
    Ok(found)
}

fn add_all(alloc: Global, rows: &mut Vec<Row>, more: &[Row]) -> Result<(), AllocError>
    ensures { OnOk result (rows.new.items ≡ rows.old.items ++ more.now) }
{
    for row in more {
        rows.push(row.copy(alloc)?)?;
    }
    Ok(())
}
