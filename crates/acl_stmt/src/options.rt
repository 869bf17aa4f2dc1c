use acl_names::LockTime;

/// What a statement sets of an account; None leaves it as it is.
///
/// MySQL 8.0 Reference Manual, "CREATE USER Statement" and "ALTER USER Statement".
#[derive(Clone, Copy, Debug, PartialEq, Eq, Drop)]
pub struct AccountOptions {
    /// FAILED_LOGIN_ATTEMPTS, at most 32,767.
    pub attempts: Option<u16>,
    /// PASSWORD_LOCK_TIME, at most 32,767 days.
    pub days: Option<LockTime>,
    /// ACCOUNT LOCK or ACCOUNT UNLOCK.
    pub locked: Option<bool>,
}
