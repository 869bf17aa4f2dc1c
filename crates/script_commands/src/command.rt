use account_match::Client;
use acl_items::Items;
use acl_names::{AuthId, Ident, UserName, Verifier};
use acl_stmt::{RoleForm, Target};
use priv_items::Named;

/// Who asks to be let in, from where, and with which password.
///
/// MySQL 8.0 Reference Manual, "Access Control, Stage 1: Connection Verification".
#[derive(Debug, Drop)]
pub struct Connect {
    pub user: UserName,
    /// The name of a client over the network is empty where none is given.
    pub client: Client,
    /// Of the empty password where none is given.
    pub verifier: Verifier,
}

/// A command as it is written, without a moment: whether the privileges of a CHECK fit the target is not asked, and the
/// names of routines come with their capitals.
#[derive(Debug, Drop)]
pub enum RawCommand {
    /// CONNECT.
    Connect(Connect),
    /// DISCONNECT.
    Disconnect,
    /// USE, with the name of a schema.
    UseSchema(Ident),
    /// SET ROLE.
    SetRole(RoleForm),
    /// CHECK.
    Check {
        privileges: Named,
        target: Target,
    },
    /// SHOW GRANTS: of the session's own account where none is given, and with no roles where no USING is.
    ShowGrants {
        account: Option<AuthId>,
        roles: Items<AuthId>,
    },
    /// AWAIT: until so many entries are published, and so many looks at most.
    Await {
        length: u32,
        turns: u32,
    },
}
