use account_match::Client;
use acl_items::Items;
use acl_names::{AuthId, Ident, UserName, Verifier};
use acl_stmt::{Request, RoleForm, Statement};

/// What a session does on a line of a script.
#[derive(Drop)]
pub enum Command {
    /// CONNECT.
    ///
    /// MySQL 8.0 Reference Manual, "Access Control, Stage 1: Connection Verification".
    Connect {
        user: UserName,
        /// The name of a client over the network is empty where none is given.
        client: Client,
        /// Of the empty password where none is given.
        verifier: Verifier,
        /// The moment of the option AT, in seconds from 1970-01-01T00:00:00Z.
        moment: Option<i64>,
    },
    /// DISCONNECT.
    Disconnect,
    /// USE, with the name of a schema.
    UseSchema(Ident),
    /// SET ROLE.
    SetRole(RoleForm),
    /// CHECK.
    ///
    /// MySQL 8.0 Reference Manual, "Access Control, Stage 2: Request Verification".
    Check(Request),
    /// SHOW GRANTS: of the session's own account where none is given, and with no roles where no USING is.
    ShowGrants {
        account: Option<AuthId>,
        roles: Items<AuthId>,
    },
    /// AWAIT: until so many entries are published, and so many looks at most.
    Await {
        length: u32,
        turns: u32,
    },
    /// A statement on accounts, privileges and roles.
    ///
    /// MySQL 8.0 Reference Manual, "Account Management Statements".
    Statement(Statement),
}
