ghost use Rattle.std.specs.Prelude.{◌≡◌, IfOk};

use acl_items::{Copied, Items};
use acl_names::AuthId;
use std::alloc::{AllocError, Global};

/// The roles that SET ROLE makes active.
///
/// MySQL 8.0 Reference Manual, "SET ROLE Statement".
#[derive(Debug, PartialEq, Eq, Drop)]
pub enum RoleForm {
    Default,
    /// The word NONE.
    Nothing,
    All,
    AllExcept(Items<AuthId>),
    List(Items<AuthId>),
}

impl RoleForm {
    /// The same form in memory of its own.
    pub fn copy(&self, alloc: Global) -> Result<RoleForm, AllocError>
        ensures { IfOk result (λ made. made ≡ self.now) }
    {
        Ok(match self {
            RoleForm::Default => RoleForm::Default,
            RoleForm::Nothing => RoleForm::Nothing,
            RoleForm::All => RoleForm::All,
            RoleForm::AllExcept(roles) => RoleForm::AllExcept(roles.copy(alloc)?),
            RoleForm::List(roles) => RoleForm::List(roles.copy(alloc)?),
        })
    }
}

impl Copied for RoleForm {
    fn copied(&self, alloc: Global) -> Result<RoleForm, AllocError> {
        self.copy(alloc)
    }
}

/// The default roles that SET DEFAULT ROLE gives an account.
///
/// MySQL 8.0 Reference Manual, "SET DEFAULT ROLE Statement".
#[derive(Debug, PartialEq, Eq, Drop)]
pub enum DefaultForm {
    /// The word NONE.
    Nothing,
    All,
    List(Items<AuthId>),
}

impl DefaultForm {
    /// The same form in memory of its own.
    pub fn copy(&self, alloc: Global) -> Result<DefaultForm, AllocError>
        ensures { IfOk result (λ made. made ≡ self.now) }
    {
        Ok(match self {
            DefaultForm::Nothing => DefaultForm::Nothing,
            DefaultForm::All => DefaultForm::All,
            DefaultForm::List(roles) => DefaultForm::List(roles.copy(alloc)?),
        })
    }
}

impl Copied for DefaultForm {
    fn copied(&self, alloc: Global) -> Result<DefaultForm, AllocError> {
        self.copy(alloc)
    }
}
