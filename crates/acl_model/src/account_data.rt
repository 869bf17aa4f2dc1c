use acl_names::{Policy, Verifier};

/// What an account is beside its privileges.
///
/// MySQL 8.0 Reference Manual, "CREATE USER Statement".
#[derive(Clone, Copy, Debug, PartialEq, Eq, Drop)]
pub struct AccountData {
    pub verifier: Verifier,
    pub locked: bool,
    pub policy: Policy,
}
