//! The limits on what stands.
ghost use Rattle.std.specs.Prelude.{◌≡◌, IfErr, OnOk};
ghost use Rattle.acl_model.specs.Acceptance.{limits_in_order};
ghost use Rattle.acl_model.specs.Counts.{IsExceeded};
ghost use Rattle.acl_model.specs.Firsts.{HasNone, IsFirst};
ghost use Rattle.acl_rows.specs.Tables.{state_of};
ghost use Rattle.acl_apply.specs.Causes.{IsOverLimit};

use acl_rows::Rows;
use acl_stmt::{Full, Refusal};
use std::alloc::Global;

// The number of one kind.
fn within_limit(alloc: Global, rows: &Rows, what: Full) -> Result<(), Refusal>
    ensures ok { OnOk result (IsExceeded (state_of rows.now) what → ⊥) }
    ensures err { IfErr result (IsOverLimit (λ full. (full ≡ what)
        × IsExceeded (state_of rows.now) what)) }
{
    let is_over = rows.exceeds(alloc, what).map_err(|_| Refusal::NoMemory)?;
    if is_over {
        return Err(Refusal::Full { what });
    }
    Ok(())
}

/// The first limit that the rows exceed.
pub(crate) fn within_limits(alloc: Global, rows: &Rows) -> Result<(), Refusal>
    ensures ok { OnOk result (HasNone (IsExceeded (state_of rows.now)) limits_in_order) }
    ensures err { IfErr result (IsOverLimit
        (IsFirst (IsExceeded (state_of rows.now)) limits_in_order)) }
{
    within_limit(alloc, rows, Full::Accounts)?;
    within_limit(alloc, rows, Full::Schemas)?;
    within_limit(alloc, rows, Full::Pairs)?;
    within_limit(alloc, rows, Full::Objects)?;
    within_limit(alloc, rows, Full::Edges)
}
