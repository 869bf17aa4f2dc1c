use acl_items::Copied;
use std::alloc::{AllocError, Global};

/// What is kept of a password: the 32 bytes of its SHA-256 digest.
#[derive(Clone, Copy, Debug, PartialEq, Eq, Hash, Drop)]
pub struct Verifier(pub [u8; 32]);

impl Copied for Verifier {
    fn copied(&self, _alloc: Global) -> Result<Self, AllocError> {
        Ok(*self)
    }
}

/// How long an account stays blocked after too many wrong passwords in a row.
///
/// MySQL 8.0 Reference Manual, "CREATE USER Statement" (PASSWORD_LOCK_TIME).
#[derive(Clone, Copy, Debug, PartialEq, Eq, Hash, Drop)]
pub enum LockTime {
    /// For that many days of 86,400 seconds; 0 turns the tracking off.
    Days(u16),
    /// Until the account is unlocked.
    Unbounded,
}

/// How wrong passwords are counted for an account.
///
/// MySQL 8.0 Reference Manual, "CREATE USER Statement" (FAILED_LOGIN_ATTEMPTS and PASSWORD_LOCK_TIME).
#[derive(Clone, Copy, Debug, PartialEq, Eq, Hash, Drop)]
pub struct Policy {
    /// The wrong passwords in a row that block the account; 0 turns the tracking off.
    pub attempts: u16,
    /// How long the account is blocked then.
    pub days: LockTime,
}
