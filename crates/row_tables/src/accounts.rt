//! What is known of accounts.
ghost use Rattle.std.specs.Prelude.{◌≡◌, ◌<◌, ◌≤◌, ◌+◌, length, max, vec_capacity, vec_len};
ghost use Rattle.acl_model.specs.Accounts.{new_account as new_account_data};
ghost use Rattle.acl_names.specs.Verifiers.{empty_verifier as no_password};
ghost use Rattle.numbered_rows.specs.Tables.{ChangesDataOnly};

use acl_model::AccountData;
use acl_names::{LockTime, Policy, Verifier};

/// What is kept of the empty password: the SHA-256 digest of no bytes.
pub fn empty_verifier() -> Verifier
    ensures { result ≡ no_password }
{
    Verifier([
        0xe3, 0xb0, 0xc4, 0x42, 0x98, 0xfc, 0x1c, 0x14, 0x9a, 0xfb, 0xf4, 0xc8, 0x99, 0x6f, 0xb9,
        0x24, 0x27, 0xae, 0x41, 0xe4, 0x64, 0x9b, 0x93, 0x4c, 0xa4, 0x95, 0x99, 0x1b, 0x78, 0x52,
        0xb8, 0x55,
    ])
}

/// An account with the empty password, open, without a policy.
pub(crate) fn new_account() -> AccountData
    ensures { result ≡ new_account_data }
{
    AccountData {
        verifier: empty_verifier(),
        locked: false,
        policy: Policy {
            attempts: 0,
            days: LockTime::Days(0),
        },
    }
}

/// Writes what is known of the account of a number, which may be the next one.
pub(crate) fn set_known(known: &mut Vec<AccountData>, number: u32, value: AccountData)
    requires next { number ≤ vec_len known.old }
    requires room { vec_len known.old < vec_capacity known.old }
    ensures value { ChangesDataOnly known.old.items known.new.items number value }
    ensures len { length known.new.items ≡ max (length known.old.items) (number + 1) }
    ensures capacity { vec_capacity known.old ≤ vec_capacity known.new }
{
    if number as usize == known.len() {
        known.push(value).unwrap();
    } else {
        known[number as usize] = value;
    }
}

/// Writes what is known of the account of a number that has been given.
pub(crate) fn change_known(known: &mut Vec<AccountData>, number: u32, value: AccountData)
    requires { number < vec_len known.old }
    ensures value { ChangesDataOnly known.old.items known.new.items number value }
    ensures len { length known.new.items ≡ length known.old.items }
    ensures capacity { vec_capacity known.new ≡ vec_capacity known.old }
{
    known[number as usize] = value;
}
