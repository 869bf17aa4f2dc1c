use acl_names::LockTime;

/// An option of an account.
///
/// MySQL 8.0 Reference Manual, "CREATE USER Statement".
#[derive(Clone, Copy, Debug, PartialEq, Eq, Drop)]
pub enum Setting {
    /// FAILED_LOGIN_ATTEMPTS.
    Attempts(u16),
    /// PASSWORD_LOCK_TIME.
    Lock(LockTime),
    /// ACCOUNT LOCK or ACCOUNT UNLOCK.
    Locked(bool),
}
