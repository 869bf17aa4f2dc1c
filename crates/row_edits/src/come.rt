//! Rows that come, each by its value.
ghost use Rattle.std.specs.Prelude.{◌≡◌, ◌+◌, [], IfOk, IsTrue, filter, length};
ghost use Rattle.std.specs.List.{list_any};
ghost use Rattle.acl_model.specs.Rows.{same_row};
ghost use Rattle.acl_model.specs.declared.row.Row.{Row as RowValue};
ghost use Rattle.row_edits.specs.Layers.{is_option, is_plain};
ghost use Rattle.row_tables.specs.Lists.{IsClosed, IsReadyAmong, with_rows, without_rows};
ghost use Rattle.row_tables.specs.Rooms.{LosesAtMost, RowsFitIn, room_of};
ghost use Rattle.row_tables.specs.Tables.{state_of};

use row_tables::{Row, Rows, take_all};
use std::alloc::{AllocError, Global};

/// Puts each row of the list, which may come by itself. It takes no memory.
pub fn put_each(rows: &mut Rows, mut come: Vec<Row>)
    requires ready { (row : RowValue) → IsTrue (list_any (same_row row) come.items)
        → IsReadyAmong (state_of rows.old) [] row }
    requires room { RowsFitIn (length come.items) (room_of rows.old) }
    ensures state { state_of rows.new ≡ with_rows come.items (state_of rows.old) }
    ensures room { LosesAtMost (length come.items) (room_of rows.old) (room_of rows.new) }
{
    while let Some(row) = come.pop() {
        rows.put(row);
    }
}

// Whether the row stands on another row, which is no account.
fn is_option(row: &Row) -> bool
    ensures { result ≡ is_option row.now }
{
    matches!(row, Row::DynamicGrant(_, _) | Row::Admin { .. })
}

// Whether the row stands on accounts alone.
fn is_plain(row: &Row) -> bool
    ensures { result ≡ is_plain row.now }
{
    !matches!(row, Row::Account(_)) && !is_option(row)
}

/// The rows of the list that stand on accounts alone, in its order and in memory of their own.
pub fn plain_of(alloc: Global, rows: &[Row]) -> Result<Vec<Row>, AllocError>
    ensures { IfOk result (λ plain. plain.items ≡ filter is_plain rows.now) }
{
    let mut plain = Vec::new(alloc);
    for row in rows {
        if !is_plain(row) {
            continue;
        }
        plain.push(row.copy(alloc)?)?;
    }
    Ok(plain)
}

/// The rows of the list that stand on other rows, which are no accounts, in its order and in memory of their own.
pub fn options_of(alloc: Global, rows: &[Row]) -> Result<Vec<Row>, AllocError>
    ensures { IfOk result (λ options. options.items ≡ filter is_option rows.now) }
{
    let mut options = Vec::new(alloc);
    for row in rows {
        if !is_option(row) {
            continue;
        }
        options.push(row.copy(alloc)?)?;
    }
    Ok(options)
}

/// Takes the rows that go away, puts those that come by themselves, and then those that stand on others. It takes no memory.
pub fn edit(rows: &mut Rows, gone: &[Row], plain: Vec<Row>, options: Vec<Row>)
    requires closed { IsClosed (state_of rows.old) gone.now }
    requires plain { (row : RowValue) → IsTrue (list_any (same_row row) plain.items)
        → IsReadyAmong (without_rows gone.now (state_of rows.old)) [] row }
    requires options { (row : RowValue) → IsTrue (list_any (same_row row) options.items)
        → IsReadyAmong (with_rows plain.items (without_rows gone.now (state_of rows.old))) [] row }
    requires room { RowsFitIn (length plain.items + length options.items) (room_of rows.old) }
    ensures state { state_of rows.new ≡ with_rows options.items
        (with_rows plain.items (without_rows gone.now (state_of rows.old))) }
    ensures room { LosesAtMost (length plain.items + length options.items) (room_of rows.old) (room_of rows.new) }
{
    take_all(rows, gone);
    put_each(rows, plain);
    put_each(rows, options);
}
