//! CREATE USER.
ghost use Rattle.std.specs.Prelude.{◌≡◌, ◌||◌, [], false, None, IfErr, IfOk, OnOk, map};
ghost use Rattle.std.specs.Option.{option_copied, option_map};
ghost use Rattle.acl_model.specs.Effects.{changed};
ghost use Rattle.acl_model.specs.Refusals.{first_fault, first_taken};
ghost use Rattle.acl_model.specs.State.{stands};
ghost use Rattle.acl_rows.specs.Tables.{state_of};
ghost use Rattle.acl_stmt.specs.declared.statement.Statement.TheVariants.{CreateUser};
ghost use Rattle.acl_stmt.specs.declared.refusal.Refusal.TheVariants.{AccountExists};
ghost use Rattle.acl_apply.specs.Causes.{IsWantOrFault};
ghost use Rattle.acl_apply.specs.Created.{IsCreateCause, IsNoRoom, created_data, with_account};

use crate::accounts::{is_among, is_standing};
use acl_names::{AuthId, LockTime, Policy, Verifier};
use acl_rows::{AccountData, Row, Rows};
use acl_stmt::{AccountOptions, Full, Refusal};
use std::alloc::{AllocError, Global};

/// The rows after CREATE USER.
pub(crate) fn create_users(
    alloc: Global,
    before: &Rows,
    if_not_exists: bool,
    accounts: &[(AuthId, Verifier)],
    options: &AccountOptions,
) -> Result<Rows, Refusal>
    ensures fault { OnOk result (first_fault (state_of before.now)
        (CreateUser if_not_exists accounts.now options.now) ≡ None) }
    ensures changed { IfOk result (λ rows. state_of rows
        ≡ changed [] (CreateUser if_not_exists accounts.now options.now) (state_of before.now)) }
    ensures err { IfErr result (IsCreateCause
        (first_fault (state_of before.now) (CreateUser if_not_exists accounts.now options.now))
        (changed [] (CreateUser if_not_exists accounts.now options.now) (state_of before.now))) }
{
    if if_not_exists {
        return create_all(alloc, before, true, accounts, options);
    }
    none_taken(alloc, before, accounts)?;
    create_all(alloc, before, false, accounts, options)
}

fn create_all(
    alloc: Global,
    before: &Rows,
    if_not_exists: bool,
    accounts: &[(AuthId, Verifier)],
    options: &AccountOptions,
) -> Result<Rows, Refusal>
    requires { first_fault (state_of before.now)
        (CreateUser if_not_exists accounts.now options.now) ≡ None }
    ensures changed { IfOk result (λ rows. state_of rows
        ≡ changed [] (CreateUser if_not_exists accounts.now options.now) (state_of before.now)) }
    ensures err { IfErr result (IsCreateCause
        (first_fault (state_of before.now) (CreateUser if_not_exists accounts.now options.now))
        (changed [] (CreateUser if_not_exists accounts.now options.now) (state_of before.now))) }
{
    let Ok(mut rows) = before.copy(alloc) else {
        return Err(Refusal::NoMemory);
    };
    for pair in accounts {
        create(alloc, &mut rows, &pair.0, new_data(options, pair.1))?;
    }
    Ok(rows)
}

fn new_data(options: &AccountOptions, verifier: Verifier) -> AccountData
    ensures { result ≡ created_data options.now verifier }
{
    AccountData {
        verifier,
        locked: options.locked.unwrap_or(false),
        policy: Policy {
            attempts: options.attempts.unwrap_or(0),
            days: options.days.unwrap_or(LockTime::Days(0)),
        },
    }
}

// The account with these data, where it does not stand.
fn create(
    alloc: Global,
    rows: &mut Rows,
    account: &AuthId,
    value: AccountData,
) -> Result<(), Refusal>
    ensures ok { OnOk result (state_of rows.new ≡ with_account account.now value (state_of rows.old)) }
    ensures err { IfErr result (IsNoRoom account.now (state_of rows.old)) }
{
    if is_standing(rows, account) {
        return Ok(());
    }
    if !rows.has_room() {
        return Err(Refusal::Full {
            what: Full::Accounts,
        });
    }
    let Ok(name) = account.copy(alloc) else {
        return Err(Refusal::NoMemory);
    };
    let Ok(()) = rows.put(Row::Account(name)) else {
        return Err(Refusal::NoMemory);
    };
    rows.set_data(account, value);
    Ok(())
}

fn names_of(alloc: Global, accounts: &[(AuthId, Verifier)]) -> Result<Vec<AuthId>, AllocError>
    ensures { IfOk result (λ names. names.items ≡ map (λ pair. pair.0) accounts.now) }
{
    let mut names = Vec::with_capacity(alloc, accounts.len())?;
    for pair in accounts {
        names.push(pair.0.copy(alloc)?)?;
    }
    Ok(names)
}

// The first account that stands, or that was named before it.
fn first_taken<'a>(rows: &Rows, names: &'a [AuthId]) -> Option<&'a AuthId>
    ensures { option_copied result ≡ first_taken (stands (state_of rows.now)) names.now }
{
    for i in 0..names.len() {
        let name = &names[i];
        if is_among(&names[..i], name) || is_standing(rows, name) {
            return Some(name);
        }
    }
    None
}

fn none_taken(alloc: Global, rows: &Rows, accounts: &[(AuthId, Verifier)]) -> Result<(), Refusal>
    ensures ok { OnOk result (first_taken (stands (state_of rows.now))
        (map (λ pair. pair.0) accounts.now) ≡ None) }
    ensures err { IfErr result (IsWantOrFault (option_map (λ a. AccountExists a)
        (first_taken (stands (state_of rows.now)) (map (λ pair. pair.0) accounts.now)))) }
{
    let Ok(names) = names_of(alloc, accounts) else {
        return Err(Refusal::NoMemory);
    };
    let Some(account) = first_taken(rows, &names) else {
        return Ok(());
    };
    match account.copy(alloc) {
        Ok(account) => Err(Refusal::AccountExists { account }),
        Err(_) => Err(Refusal::NoMemory),
    }
}
