//! The accounts that stand, each with what is known of it.
ghost use Rattle.std.specs.Prelude.{◌≡◌, ◌∷◌, ◌++◌, [], not, filter, position, IfOk, OnOk, OnErr};
ghost use Rattle.std.specs.Option.{option_copied};
ghost use Rattle.acl_names.specs.AuthId.{same_auth};
ghost use Rattle.acl_model.specs.Accounts.{new_account as new_data};
ghost use Rattle.acl_names.specs.Verifiers.{empty_verifier as no_password};
ghost use Rattle.acl_rows.specs.Renaming.{change_first};
ghost use Rattle.acl_rows.specs.Tables.{data_of, has_account, names_of};

use acl_model::AccountData;
use acl_names::{AuthId, LockTime, Policy, Verifier};
use std::alloc::{AllocError, Global};

/// What is kept of the empty password: the SHA-256 digest of no bytes.
pub fn empty_verifier() -> Verifier
    ensures { result ≡ no_password }
{
    Verifier([
        0xe3, 0xb0, 0xc4, 0x42, 0x98, 0xfc, 0x1c, 0x14, 0x9a, 0xfb, 0xf4, 0xc8, 0x99, 0x6f, 0xb9,
        0x24, 0x27, 0xae, 0x41, 0xe4, 0x64, 0x9b, 0x93, 0x4c, 0xa4, 0x95, 0x99, 0x1b, 0x78, 0x52,
        0xb8, 0x55,
    ])
}

fn new_account() -> AccountData
    ensures { result ≡ new_data }
{
    AccountData {
        verifier: empty_verifier(),
        locked: false,
        policy: Policy {
            attempts: 0,
            days: LockTime::Days(0),
        },
    }
}

pub(crate) fn has_account(accounts: &[(AuthId, AccountData)], account: &AuthId) -> bool
    ensures { result ≡ has_account accounts.now account.now }
{
    accounts.iter().any(|pair| account.is(&pair.0))
}

pub(crate) fn find_data<'a>(
    accounts: &'a [(AuthId, AccountData)],
    account: &AuthId,
) -> Option<&'a AccountData>
    ensures { option_copied result ≡ data_of accounts.now account.now }
{
    accounts
        .iter()
        .find(|pair| account.is(&pair.0))
        .map(|pair| &pair.1)
}

pub(crate) fn add_account(
    accounts: &mut Vec<(AuthId, AccountData)>,
    account: AuthId,
) -> Result<(), AllocError>
    ensures ok { OnOk result (accounts.new.items ≡ accounts.old.items ++ (account, new_data) ∷ []) }
    ensures err { OnErr result (accounts.new.items ≡ accounts.old.items) }
{
    accounts.push((account, new_account()))?;
    Ok(())
}

pub(crate) fn remove_account(accounts: &mut Vec<(AuthId, AccountData)>, account: &AuthId)
    ensures { accounts.new.items ≡ filter (λ pair. not (same_auth account.now pair.0)) accounts.old.items }
{
    accounts.retain(|pair| !account.is(&pair.0));
}

pub(crate) fn copy_accounts(
    alloc: Global,
    accounts: &[(AuthId, AccountData)],
) -> Result<Vec<(AuthId, AccountData)>, AllocError>
    ensures { IfOk result (λ made. made.items ≡ accounts.now) }
{
    let mut made = Vec::with_capacity(alloc, accounts.len())?;
    for pair in accounts {
        made.push((pair.0.copy(alloc)?, pair.1))?;
    }
    Ok(made)
}

pub(crate) fn copy_names(
    alloc: Global,
    accounts: &[(AuthId, AccountData)],
) -> Result<Vec<AuthId>, AllocError>
    ensures { IfOk result (λ names. names.items ≡ names_of accounts.now) }
{
    let mut names = Vec::with_capacity(alloc, accounts.len())?;
    for pair in accounts {
        names.push(pair.0.copy(alloc)?)?;
    }
    Ok(names)
}

// The place of the account; each is listed once.
fn place_of(accounts: &[(AuthId, AccountData)], account: &AuthId) -> Option<usize>
    ensures { result ≡ position (λ pair. same_auth account.now pair.0) accounts.now }
{
    accounts.iter().position(|pair| account.is(&pair.0))
}

pub(crate) fn set_data_of(
    accounts: &mut Vec<(AuthId, AccountData)>,
    account: &AuthId,
    value: AccountData,
)
    ensures { accounts.new.items ≡ change_first (λ pair. same_auth account.now pair.0)
        (λ pair. (pair.0, value)) accounts.old.items }
{
    if let Some(place) = place_of(accounts, account) {
        accounts[place].1 = value;
    }
}

pub(crate) fn rename_account(accounts: &mut Vec<(AuthId, AccountData)>, old: &AuthId, new: AuthId)
    ensures { accounts.new.items ≡ change_first (λ pair. same_auth old.now pair.0)
        (λ pair. (new, pair.1)) accounts.old.items }
{
    if let Some(place) = place_of(accounts, old) {
        accounts[place].0 = new;
    }
}
