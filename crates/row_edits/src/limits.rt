//! The limits on what stands.
ghost use Rattle.std.specs.Prelude.{◌≡◌, IfErr, OnOk};
ghost use Rattle.acl_model.specs.Acceptance.{limits_in_order};
ghost use Rattle.acl_model.specs.Counts.{IsExceeded};
ghost use Rattle.acl_model.specs.Firsts.{HasNone, IsFirst};
ghost use Rattle.row_tables.specs.Tables.{state_of};

use acl_stmt::Full;
use row_tables::Rows;

// The number of one kind.
fn within_limit(rows: &Rows, what: Full) -> Result<(), Full>
    ensures ok { OnOk result (IsExceeded (state_of rows.now) what → ⊥) }
    ensures err { IfErr result (λ full. (full ≡ what) × IsExceeded (state_of rows.now) what) }
{
    if rows.exceeds(what) {
        return Err(what);
    }
    Ok(())
}

/// The first limit that the rows exceed, as an error. It takes no memory.
pub fn within_limits(rows: &Rows) -> Result<(), Full>
    ensures ok { OnOk result (HasNone (IsExceeded (state_of rows.now)) limits_in_order) }
    ensures err { IfErr result (IsFirst (IsExceeded (state_of rows.now)) limits_in_order) }
{
    within_limit(rows, Full::Accounts)?;
    within_limit(rows, Full::Schemas)?;
    within_limit(rows, Full::Pairs)?;
    within_limit(rows, Full::Objects)?;
    within_limit(rows, Full::Edges)
}
