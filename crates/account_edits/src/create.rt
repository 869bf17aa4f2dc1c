//! Accounts that come, each with its data.
ghost use Rattle.std.specs.Prelude.{◌≡◌, ◌≤◌, IfErr, IfOk, IsTrue, OnOk, length, false};
ghost use Rattle.std.specs.Bool.{MatchBool};
ghost use Rattle.std.specs.List.{list_any};
ghost use Rattle.acl_model.specs.Acceptance.{limits_in_order};
ghost use Rattle.acl_model.specs.Counts.{HasMoreThan, IsExceeded};
ghost use Rattle.acl_model.specs.Firsts.{HasNone, IsFirst};
ghost use Rattle.acl_model.specs.Rows.{same_row};
ghost use Rattle.acl_model.specs.State.{stands};
ghost use Rattle.acl_model.specs.declared.row.Row.{Row as RowValue};
ghost use Rattle.acl_names.specs.AuthId.{same_auth};
ghost use Rattle.row_tables.specs.Conditions.{HasRoom};
ghost use Rattle.row_tables.specs.Rooms.{room_of};
ghost use Rattle.row_tables.specs.Tables.{state_of};
ghost use Rattle.account_edits.specs.Created.{HasComePartly, IsCrowded, account_rows, created_data, new_accounts, with_accounts};
ghost use Rattle.row_edits.specs.Causes.{IsWantOrLimit};

use crate::standing::is_standing;
use acl_names::{AuthId, LockTime, Policy, Verifier};
use acl_stmt::{AccountOptions, Full, Refusal};
use row_edits::within_limits;
use row_tables::{AccountData, Room, Row, Rows, take_all};
use std::alloc::{AllocError, Global};

/// Tries to create the accounts, and changes no row: those that do not stand, each with its data, and with room for them. A limit
/// that is exceeded then is an error.
///
/// MySQL 8.0 Reference Manual, "CREATE USER Statement".
pub fn try_accounts(
    alloc: Global,
    rows: &mut Rows,
    accounts: &[(AuthId, Verifier)],
    options: &AccountOptions,
) -> Result<Vec<(AuthId, AccountData)>, Refusal>
    ensures kept { state_of rows.new ≡ state_of rows.old }
    ensures new { IfOk result (λ made. made.items ≡ new_accounts (state_of rows.old) options.now accounts.now) }
    ensures within { OnOk result (HasNone (IsExceeded (with_accounts
        (new_accounts (state_of rows.old) options.now accounts.now) (state_of rows.old))) limits_in_order) }
    ensures room { IfOk result (λ made. length made.items ≤ (room_of rows.new).accounts) }
    ensures err { IfErr result (IsWantOrLimit (IsFirst (IsExceeded (with_accounts
        (new_accounts (state_of rows.old) options.now accounts.now) (state_of rows.old))) limits_in_order)) }
{
    may_add(alloc, rows, accounts, options)?;
    let Ok(made) = new_accounts(alloc, rows, accounts, options) else {
        return Err(Refusal::NoMemory);
    };
    let Ok(()) = reserve_for(rows, made.len()) else {
        return Err(Refusal::NoMemory);
    };
    Ok(made)
}

// Whether the limits hold with the new accounts, which go again.
fn may_add(
    alloc: Global,
    rows: &mut Rows,
    accounts: &[(AuthId, Verifier)],
    options: &AccountOptions,
) -> Result<(), Refusal>
    ensures kept { state_of rows.new ≡ state_of rows.old }
    ensures ok { OnOk result (HasNone (IsExceeded (with_accounts
        (new_accounts (state_of rows.old) options.now accounts.now) (state_of rows.old))) limits_in_order) }
    ensures err { IfErr result (IsWantOrLimit (IsFirst (IsExceeded (with_accounts
        (new_accounts (state_of rows.old) options.now accounts.now) (state_of rows.old))) limits_in_order)) }
{
    let Ok(made) = new_accounts(alloc, rows, accounts, options) else {
        return Err(Refusal::NoMemory);
    };
    let Ok(()) = reserve_for(rows, made.len()) else {
        return Err(Refusal::NoMemory);
    };
    let Ok(back) = account_rows(alloc, &made) else {
        return Err(Refusal::NoMemory);
    };
    limits_with(rows, made, &back).map_err(|what| Refusal::Full { what })
}

// The first limit that is exceeded with the accounts, which go again.
fn limits_with(
    rows: &mut Rows,
    accounts: Vec<(AuthId, AccountData)>,
    back: &[Row],
) -> Result<(), Full>
    requires back { back.now ≡ account_rows accounts.items }
    requires absent { (row : RowValue) → IsTrue (list_any (same_row row) back.now) → (state_of rows.old).rows row ≡ false }
    requires room { length accounts.items ≤ (room_of rows.old).accounts }
    ensures kept { state_of rows.new ≡ state_of rows.old }
    ensures ok { OnOk result (HasNone (IsExceeded (with_accounts accounts.items (state_of rows.old))) limits_in_order) }
    ensures err { IfErr result (IsFirst (IsExceeded (with_accounts accounts.items (state_of rows.old))) limits_in_order) }
{
    rows.rows_name_accounts();
    let within = if add_accounts(rows, accounts) {
        within_limits(rows)
    } else {
        Err(Full::Accounts)
    };
    take_all(rows, back);
    within
}

/// Makes each account stand, where one is named twice with its first data, and stops before one too many. It takes no memory.
pub fn add_accounts(rows: &mut Rows, mut accounts: Vec<(AuthId, AccountData)>) -> bool
    requires { length accounts.items ≤ (room_of rows.old).accounts }
    ensures all { MatchBool result (state_of rows.new ≡ with_accounts accounts.items (state_of rows.old))
        (IsCrowded (with_accounts accounts.items (state_of rows.old))) }
    ensures partly { HasComePartly (account_rows accounts.items) (state_of rows.old) (state_of rows.new) }
{
    while let Some((account, value)) = accounts.pop() {
        if !has_place(rows, &account) {
            return false;
        }
        rows.put_account(account, value);
    }
    true
}

// Whether the account stands, or may come.
fn has_place(rows: &Rows, account: &AuthId) -> bool
    ensures { MatchBool result (stands (state_of rows.now) account.now ≡ false → HasRoom (state_of rows.now))
        ((stands (state_of rows.now) account.now ≡ false)
        × HasMoreThan same_auth (λ a. IsTrue (stands (state_of rows.now) a)) 4095) }
{
    if is_standing(rows, account) {
        return true;
    }
    rows.has_room()
}

// Room for so many accounts.
fn reserve_for(rows: &mut Rows, accounts: usize) -> Result<(), AllocError>
    ensures kept { state_of rows.new ≡ state_of rows.old }
    ensures room { OnOk result (accounts ≤ (room_of rows.new).accounts) }
{
    rows.reserve(Room {
        accounts: u32::try_from(accounts).map_err(|_| AllocError)?,
        schemas: 0,
        pairs: 0,
        objects: 0,
        edges: 0,
    })
}

// The accounts that do not stand, each with its data.
fn new_accounts(
    alloc: Global,
    rows: &Rows,
    accounts: &[(AuthId, Verifier)],
    options: &AccountOptions,
) -> Result<Vec<(AuthId, AccountData)>, AllocError>
    ensures { IfOk result (λ made. made.items ≡ new_accounts (state_of rows.now) options.now accounts.now) }
{
    let mut made = Vec::new(alloc);
    for pair in accounts {
        if is_standing(rows, &pair.0) {
            continue;
        }
        made.push((pair.0.copy(alloc)?, new_data(options, pair.1)))?;
    }
    Ok(made)
}

fn account_rows(alloc: Global, accounts: &[(AuthId, AccountData)]) -> Result<Vec<Row>, AllocError>
    ensures { IfOk result (λ rows. rows.items ≡ account_rows accounts.now) }
{
    let mut rows = Vec::with_capacity(alloc, accounts.len())?;
    for pair in accounts {
        rows.push(Row::Account(pair.0.copy(alloc)?))?;
    }
    Ok(rows)
}

fn new_data(options: &AccountOptions, verifier: Verifier) -> AccountData
    ensures { result ≡ created_data options.now verifier }
{
    AccountData {
        verifier,
        locked: options.locked.unwrap_or(false),
        policy: Policy {
            attempts: options.attempts.unwrap_or(0),
            days: options.days.unwrap_or(LockTime::Days(0)),
        },
    }
}
