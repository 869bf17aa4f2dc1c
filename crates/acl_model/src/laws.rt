ghost use Rattle.std.specs.Prelude.{◌≡◌, ◌↔◌, IsTrue};
ghost use Rattle.acl_model.specs.Rows.{same_row};
ghost use Rattle.acl_model.specs.declared.row.Row.{Row};

/// The law that two rows are the same exactly where they are equal. It does nothing when it runs.
pub fn same_rows_are_equal()
    ensures { (a b : Row) → IsTrue (same_row a b) ↔ (a ≡ b) }
{}
