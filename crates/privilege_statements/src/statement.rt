use acl_items::Items;
use acl_names::AuthId;
use acl_stmt::Target;
use priv_items::Named;

/// A GRANT or a REVOKE of privileges as it is written: whether the privileges fit the target is not asked, and the names
/// of routines come with their capitals.
///
/// MySQL 8.0 Reference Manual, "GRANT Statement" and "REVOKE Statement".
#[derive(Debug, PartialEq, Eq, Drop)]
pub enum RawStatement {
    Grant {
        privileges: Named,
        target: Target,
        accounts: Items<AuthId>,
        with_grant_option: bool,
    },
    Revoke {
        privileges: Named,
        target: Target,
        accounts: Items<AuthId>,
    },
}
