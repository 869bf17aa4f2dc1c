ghost use Rattle.std.specs.Prelude.{◌≡◌, IsTrue, filter};
ghost use Rattle.std.specs.List.{list_any};
ghost use Rattle.acl_model.specs.Rows.{same_row};
ghost use Rattle.acl_model.specs.declared.row.Row.{Row as RowValue};
ghost use Rattle.row_tables.specs.Conditions.{IsFreeToGo};
ghost use Rattle.row_tables.specs.Rooms.{LosesAtMost, room_of};
ghost use Rattle.row_tables.specs.Tables.{state_of};
ghost use Rattle.row_tables.specs.Layers.{is_in};
ghost use Rattle.row_tables.specs.Lists.{IsClosed, without_rows};

use crate::layer::{Layer, is_in};
use crate::rows::Rows;
use acl_model::Row;

/// Takes each row of the list away that stands, and with an account what is known of it.
pub fn take_all(rows: &mut Rows, gone: &[Row])
    requires { IsClosed (state_of rows.old) gone.now }
    ensures state { state_of rows.new ≡ without_rows gone.now (state_of rows.old) }
    ensures room { LosesAtMost 0 (room_of rows.old) (room_of rows.new) }
{
    take_layer(rows, gone, Layer::Options);
    take_layer(rows, gone, Layer::Holdings);
    take_layer(rows, gone, Layer::Accounts);
}

fn take_layer(rows: &mut Rows, gone: &[Row], layer: Layer)
    requires { (row : RowValue) → IsTrue (list_any (same_row row) gone.now) → IsTrue (is_in layer row)
        → IsFreeToGo (state_of rows.old) row }
    ensures state { state_of rows.new ≡ without_rows (filter (is_in layer) gone.now) (state_of rows.old) }
    ensures room { LosesAtMost 0 (room_of rows.old) (room_of rows.new) }
{
    for row in gone {
        if !is_in(layer, row) {
            continue;
        }
        rows.take(row);
    }
}
