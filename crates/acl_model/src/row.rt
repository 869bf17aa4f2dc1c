ghost use Rattle.std.specs.Prelude.{◌≡◌, IfOk};

use acl_items::Copied;
use acl_names::{AuthId, Ident};
use std::alloc::{AllocError, Global};

/// One row of the grant tables. A last number is that of a privilege, static in most rows and dynamic in two.
///
/// MySQL 8.0 Reference Manual, "Grant Tables".
#[derive(Debug, PartialEq, Eq, Drop)]
pub enum Row {
    /// The account is there.
    Account(AuthId),
    /// It holds the privilege on `*.*`.
    Global(AuthId, u8),
    /// It holds the dynamic privilege.
    Dynamic(AuthId, u8),
    /// It may grant the dynamic privilege.
    DynamicGrant(AuthId, u8),
    /// It holds the privilege on the schema.
    Schema(AuthId, Ident, u8),
    /// It holds the privilege on the table of the schema.
    Table(AuthId, Ident, Ident, u8),
    /// It holds the privilege on the column of the table of the schema.
    Column(AuthId, Ident, Ident, Ident, u8),
    /// It holds the privilege on the function of the schema.
    Function(AuthId, Ident, Ident, u8),
    /// It holds the privilege on the procedure of the schema.
    Procedure(AuthId, Ident, Ident, u8),
    /// The role is granted to the account.
    Edge { role: AuthId, to: AuthId },
    /// The account may grant the role.
    Admin { role: AuthId, to: AuthId },
    /// The role is a default role of the account.
    Default { of: AuthId, role: AuthId },
    /// The account's privilege on `*.*` does not reach the schema.
    Restriction(AuthId, u8, Ident),
}

impl Row {
    ghost use Rattle.acl_model.specs.Rows.{same_row};

    /// Whether both are one row.
    pub fn is(&self, other: &Row) -> bool
        ensures { result ≡ same_row self.now other.now }
    {
        self == other
    }

    /// The same row in memory of its own.
    pub fn copy(&self, alloc: Global) -> Result<Row, AllocError>
        ensures { IfOk result (λ made. made ≡ self.now) }
    {
        Ok(match self {
            Row::Account(a) => Row::Account(a.copy(alloc)?),
            Row::Global(a, p) => Row::Global(a.copy(alloc)?, *p),
            Row::Dynamic(a, d) => Row::Dynamic(a.copy(alloc)?, *d),
            Row::DynamicGrant(a, d) => Row::DynamicGrant(a.copy(alloc)?, *d),
            Row::Schema(a, s, p) => Row::Schema(a.copy(alloc)?, s.copy(alloc)?, *p),
            Row::Table(a, s, t, p) => {
                Row::Table(a.copy(alloc)?, s.copy(alloc)?, t.copy(alloc)?, *p)
            }
            Row::Column(a, s, t, c, p) => Row::Column(
                a.copy(alloc)?,
                s.copy(alloc)?,
                t.copy(alloc)?,
                c.copy(alloc)?,
                *p,
            ),
            Row::Function(a, s, f, p) => {
                Row::Function(a.copy(alloc)?, s.copy(alloc)?, f.copy(alloc)?, *p)
            }
            Row::Procedure(a, s, f, p) => {
                Row::Procedure(a.copy(alloc)?, s.copy(alloc)?, f.copy(alloc)?, *p)
            }
            Row::Edge { role, to } => Row::Edge {
                role: role.copy(alloc)?,
                to: to.copy(alloc)?,
            },
            Row::Admin { role, to } => Row::Admin {
                role: role.copy(alloc)?,
                to: to.copy(alloc)?,
            },
            Row::Default { of, role } => Row::Default {
                of: of.copy(alloc)?,
                role: role.copy(alloc)?,
            },
            Row::Restriction(a, p, s) => Row::Restriction(a.copy(alloc)?, *p, s.copy(alloc)?),
        })
    }
}

impl Copied for Row {
    fn copied(&self, alloc: Global) -> Result<Row, AllocError> {
        self.copy(alloc)
    }
}
