ghost use Rattle.std.specs.Prelude.{◌≡◌, IfOk};

use crate::{AccountOptions, DefaultForm, PrivList, Target};
use acl_items::{Copied, Items};
use acl_names::{AuthId, Verifier};
use std::alloc::{AllocError, Global};

/// An account management statement.
///
/// MySQL 8.0 Reference Manual, "Account Management Statements".
#[derive(PartialEq, Eq, Drop)]
pub enum Statement {
    /// An account without a password has the verifier of the empty one.
    CreateUser {
        if_not_exists: bool,
        accounts: Items<(AuthId, Verifier)>,
        options: AccountOptions,
    },
    /// None beside an account leaves its password as it is.
    AlterUser {
        accounts: Items<(AuthId, Option<Verifier>)>,
        options: AccountOptions,
    },
    DropUser {
        if_exists: bool,
        accounts: Items<AuthId>,
    },
    /// Each pair has the old name first.
    RenameUser {
        pairs: Items<(AuthId, AuthId)>,
    },
    CreateRole {
        if_not_exists: bool,
        roles: Items<AuthId>,
    },
    DropRole {
        if_exists: bool,
        roles: Items<AuthId>,
    },
    /// The list never holds GRANT OPTION, which is `with_grant_option`.
    Grant {
        privileges: PrivList,
        target: Target,
        accounts: Items<AuthId>,
        with_grant_option: bool,
    },
    GrantRoles {
        roles: Items<AuthId>,
        accounts: Items<AuthId>,
        with_admin_option: bool,
    },
    Revoke {
        privileges: PrivList,
        target: Target,
        accounts: Items<AuthId>,
    },
    /// REVOKE ALL PRIVILEGES, GRANT OPTION.
    RevokeAll {
        accounts: Items<AuthId>,
    },
    RevokeRoles {
        roles: Items<AuthId>,
        accounts: Items<AuthId>,
    },
    SetDefaultRole {
        form: DefaultForm,
        accounts: Items<AuthId>,
    },
    /// None is the session's own account.
    SetPassword {
        account: Option<AuthId>,
        verifier: Verifier,
    },
    /// SET PERSIST mandatory_roles.
    SetMandatory {
        roles: Items<AuthId>,
    },
    /// SET PERSIST activate_all_roles_on_login.
    SetActivateAll {
        on: bool,
    },
}

impl Statement {
    /// The same statement in memory of its own.
    pub fn copy(&self, alloc: Global) -> Result<Statement, AllocError>
        ensures { IfOk result (λ made. made ≡ self.now) }
    {
        Ok(match self {
            Statement::CreateUser {
                if_not_exists,
                accounts,
                options,
            } => Statement::CreateUser {
                if_not_exists: *if_not_exists,
                accounts: accounts.copy(alloc)?,
                options: *options,
            },
            Statement::AlterUser { accounts, options } => Statement::AlterUser {
                accounts: accounts.copy(alloc)?,
                options: *options,
            },
            Statement::DropUser {
                if_exists,
                accounts,
            } => Statement::DropUser {
                if_exists: *if_exists,
                accounts: accounts.copy(alloc)?,
            },
            Statement::RenameUser { pairs } => Statement::RenameUser {
                pairs: pairs.copy(alloc)?,
            },
            Statement::CreateRole {
                if_not_exists,
                roles,
            } => Statement::CreateRole {
                if_not_exists: *if_not_exists,
                roles: roles.copy(alloc)?,
            },
            Statement::DropRole { if_exists, roles } => Statement::DropRole {
                if_exists: *if_exists,
                roles: roles.copy(alloc)?,
            },
            Statement::Grant {
                privileges,
                target,
                accounts,
                with_grant_option,
            } => Statement::Grant {
                privileges: privileges.copy(alloc)?,
                target: target.copy(alloc)?,
                accounts: accounts.copy(alloc)?,
                with_grant_option: *with_grant_option,
            },
            Statement::GrantRoles {
                roles,
                accounts,
                with_admin_option,
            } => Statement::GrantRoles {
                roles: roles.copy(alloc)?,
                accounts: accounts.copy(alloc)?,
                with_admin_option: *with_admin_option,
            },
            Statement::Revoke {
                privileges,
                target,
                accounts,
            } => Statement::Revoke {
                privileges: privileges.copy(alloc)?,
                target: target.copy(alloc)?,
                accounts: accounts.copy(alloc)?,
            },
            Statement::RevokeAll { accounts } => Statement::RevokeAll {
                accounts: accounts.copy(alloc)?,
            },
            Statement::RevokeRoles { roles, accounts } => Statement::RevokeRoles {
                roles: roles.copy(alloc)?,
                accounts: accounts.copy(alloc)?,
            },
            Statement::SetDefaultRole { form, accounts } => Statement::SetDefaultRole {
                form: form.copy(alloc)?,
                accounts: accounts.copy(alloc)?,
            },
            Statement::SetPassword { account, verifier } => Statement::SetPassword {
                account: account.copied(alloc)?,
                verifier: *verifier,
            },
            Statement::SetMandatory { roles } => Statement::SetMandatory {
                roles: roles.copy(alloc)?,
            },
            Statement::SetActivateAll { on } => Statement::SetActivateAll { on: *on },
        })
    }
}

impl Copied for Statement {
    fn copied(&self, alloc: Global) -> Result<Statement, AllocError> {
        self.copy(alloc)
    }
}
