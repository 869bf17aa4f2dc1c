//! What is told of a missing privilege.
ghost use Rattle.std.specs.Prelude.{◌≡◌, ◌==◌, IfOk};
ghost use Rattle.std.specs.List.{find};
ghost use Rattle.std.specs.Option.{option_copied};
ghost use Rattle.session_rules.specs.Answers.{column_at, columns_of, denial_for};
ghost use Rattle.script_run.specs.Denials.{static_number};

use acl_names::Ident;
use acl_stmt::{ColumnPriv, Missing, PrivList, Request, Target};
use line_answers::Denial;
use priv_sets::Privilege;
use std::alloc::{AllocError, Global};

/// The denial of a request that misses this.
pub(crate) fn denial_of(
    alloc: Global,
    request: &Request,
    missing: Missing,
) -> Result<Denial, AllocError>
    ensures { IfOk result (λ denial.
        denial ≡ denial_for request.now.privileges request.now.target missing) }
{
    let column = match column_of(&request.privileges, missing) {
        Some(name) => Some(name.copy(alloc)?),
        None => None,
    };
    let target = if missing.on_target {
        request.target.copy(alloc)?
    } else {
        Target::Global
    };
    Ok(Denial {
        missing,
        target,
        column,
    })
}

fn column_of(privileges: &PrivList, missing: Missing) -> Option<&Ident>
    ensures { option_copied result
        ≡ column_at (columns_of privileges.now missing.privilege) missing.column }
{
    let place = missing.column?;
    let number = static_number(missing.privilege)?;
    let columns = columns_on(privileges.columns.as_slice(), number)?;
    columns.names.get(place as usize)
}

fn static_number(privilege: Privilege) -> Option<u8>
    ensures { result ≡ static_number privilege }
{
    match privilege {
        Privilege::Plain(plain) => Some(plain.number()),
        Privilege::Dynamic(_) => None,
    }
}

fn columns_on(lists: &[ColumnPriv], number: u8) -> Option<&ColumnPriv>
    ensures { option_copied result ≡ find (λ columns. columns.privilege == number) lists.now }
{
    lists.iter().find(|columns| columns.privilege == number)
}
