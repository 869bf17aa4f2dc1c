//! RENAME USER.
ghost use Rattle.std.specs.Prelude.{◌≡◌, [], None, IfErr, IfOk, OnOk};
ghost use Rattle.std.specs.List.{find};
ghost use Rattle.std.specs.Option.{option_copied, option_map};
ghost use Rattle.acl_model.specs.Effects.{changed};
ghost use Rattle.acl_model.specs.Refusals.{first_fault};
ghost use Rattle.acl_model.specs.State.{is_mandatory, stands};
ghost use Rattle.acl_rows.specs.Changes.{renamed};
ghost use Rattle.acl_rows.specs.Tables.{state_of};
ghost use Rattle.acl_stmt.specs.declared.statement.Statement.TheVariants.{RenameUser};
ghost use Rattle.acl_apply.specs.Causes.{IsWantOrFault};
ghost use Rattle.acl_apply.specs.Renamed.{pair_fault};

use crate::accounts::{is_mandatory, is_standing};
use acl_names::AuthId;
use acl_rows::{Row, Rows};
use acl_stmt::Refusal;
use std::alloc::Global;

/// The rows after RENAME USER.
pub(crate) fn rename_users(
    alloc: Global,
    before: &Rows,
    pairs: &[(AuthId, AuthId)],
) -> Result<Rows, Refusal>
    ensures fault { OnOk result (first_fault (state_of before.now) (RenameUser pairs.now) ≡ None) }
    ensures changed { IfOk result (λ rows.
        state_of rows ≡ changed [] (RenameUser pairs.now) (state_of before.now)) }
    ensures err { IfErr result (IsWantOrFault (first_fault (state_of before.now) (RenameUser pairs.now))) }
{
    let Ok(mut rows) = before.copy(alloc) else {
        return Err(Refusal::NoMemory);
    };
    for pair in pairs {
        rename_user(alloc, &mut rows, &pair.0, &pair.1)?;
    }
    let Some(role) = first_mandatory(before, pairs) else {
        return Ok(rows);
    };
    match role.copy(alloc) {
        Ok(role) => Err(Refusal::Mandatory { role }),
        Err(_) => Err(Refusal::NoMemory),
    }
}

fn rename_user(alloc: Global, rows: &mut Rows, old: &AuthId, new: &AuthId) -> Result<(), Refusal>
    ensures fault { OnOk result (pair_fault (stands (state_of rows.old)) old.now new.now ≡ None) }
    ensures ok { OnOk result (state_of rows.new ≡ renamed old.now new.now (state_of rows.old)) }
    ensures err { IfErr result (IsWantOrFault (pair_fault (stands (state_of rows.old)) old.now new.now)) }
{
    if !is_standing(rows, old) {
        let account = old.copy(alloc).map_err(|_| Refusal::NoMemory)?;
        return Err(Refusal::NoSuchAccount { account });
    }
    let account = new.copy(alloc).map_err(|_| Refusal::NoMemory)?;
    if is_standing(rows, new) {
        return Err(Refusal::AccountExists { account });
    }
    rows.rename(alloc, old, account)
        .map_err(|_| Refusal::NoMemory)
}

// The first old name that is mandatory.
fn first_mandatory<'a>(rows: &Rows, pairs: &'a [(AuthId, AuthId)]) -> Option<&'a AuthId>
    ensures { option_copied result ≡ option_map (λ pair. pair.0)
        (find (λ pair. is_mandatory (state_of rows.now) pair.0) pairs.now) }
{
    pairs
        .iter()
        .find(|pair| is_mandatory(rows, &pair.0))
        .map(|pair| &pair.0)
}
