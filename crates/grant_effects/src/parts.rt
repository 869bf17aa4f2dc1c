use acl_names::AuthId;
use acl_stmt::{PrivList, Target};

/// The parts of a GRANT of privileges.
///
/// MySQL 8.0 Reference Manual, "GRANT Statement".
#[derive(Clone, Copy)]
pub struct GrantParts<'a> {
    pub privileges: &'a PrivList,
    pub target: &'a Target,
    /// An account that stands twice counts once.
    pub accounts: &'a [AuthId],
    pub with_grant_option: bool,
}
