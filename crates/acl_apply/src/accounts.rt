//! Which accounts of a list stand.
ghost use Rattle.std.specs.Prelude.{◌≡◌, None, Some, not, IfErr, OnOk};
ghost use Rattle.std.specs.List.{find};
ghost use Rattle.std.specs.Option.{option_copied, option_map};
ghost use Rattle.acl_model.specs.Refusals.{first_gone, no_account};
ghost use Rattle.acl_model.specs.Rows.{lists};
ghost use Rattle.acl_model.specs.State.{is_mandatory, stands};
ghost use Rattle.acl_rows.specs.Tables.{state_of};
ghost use Rattle.acl_stmt.specs.declared.refusal.Refusal.TheVariants.{NoSuchAccount};
ghost use Rattle.acl_apply.specs.Causes.{IsWantOrFault};

use acl_names::AuthId;
use acl_rows::Rows;
use acl_stmt::Refusal;
use std::alloc::Global;

pub(crate) fn is_standing(rows: &Rows, account: &AuthId) -> bool
    ensures { result ≡ stands (state_of rows.now) account.now }
{
    rows.account(account).is_some()
}

pub(crate) fn is_mandatory(rows: &Rows, role: &AuthId) -> bool
    ensures { result ≡ is_mandatory (state_of rows.now) role.now }
{
    rows.mandatory().iter().any(|name| role.is(name))
}

pub(crate) fn is_among(names: &[AuthId], name: &AuthId) -> bool
    ensures { result ≡ lists names.now name.now }
{
    names.iter().any(|other| name.is(other))
}

fn no_such_account(alloc: Global, account: &AuthId) -> Refusal
    ensures { IsWantOrFault (Some (NoSuchAccount account.now)) result }
{
    match account.copy(alloc) {
        Ok(account) => Refusal::NoSuchAccount { account },
        Err(_) => Refusal::NoMemory,
    }
}

fn first_missing<'a>(rows: &Rows, names: &'a [AuthId]) -> Option<&'a AuthId>
    ensures { option_copied result ≡ find (λ a. not (stands (state_of rows.now) a)) names.now }
{
    names.iter().find(|name| !is_standing(rows, name))
}

/// Refuses a list with an account that does not stand.
pub(crate) fn all_stand(alloc: Global, rows: &Rows, names: &[AuthId]) -> Result<(), Refusal>
    ensures ok { OnOk result (no_account (state_of rows.now) names.now ≡ None) }
    ensures err { IfErr result (IsWantOrFault (no_account (state_of rows.now) names.now)) }
{
    let Some(account) = first_missing(rows, names) else {
        return Ok(());
    };
    Err(no_such_account(alloc, account))
}

// The first account that does not stand, or that was named before it.
fn first_gone<'a>(rows: &Rows, names: &'a [AuthId]) -> Option<&'a AuthId>
    ensures { option_copied result ≡ first_gone (stands (state_of rows.now)) names.now }
{
    for i in 0..names.len() {
        let name = &names[i];
        if is_among(&names[..i], name) || !is_standing(rows, name) {
            return Some(name);
        }
    }
    None
}

/// Refuses a list with an account that does not stand, or that the list has twice.
pub(crate) fn none_gone(alloc: Global, rows: &Rows, names: &[AuthId]) -> Result<(), Refusal>
    ensures ok { OnOk result (option_map (λ a. NoSuchAccount a)
        (first_gone (stands (state_of rows.now)) names.now) ≡ None) }
    ensures err { IfErr result (IsWantOrFault (option_map (λ a. NoSuchAccount a)
        (first_gone (stands (state_of rows.now)) names.now))) }
{
    let Some(account) = first_gone(rows, names) else {
        return Ok(());
    };
    Err(no_such_account(alloc, account))
}
