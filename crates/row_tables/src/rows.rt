ghost use Rattle.std.specs.Prelude.{◌≡◌, ◌<◌, IfSome, length, None, Some, is_some};
ghost use Rattle.std.specs.Option.{option_copied};
ghost use Rattle.account_holdings.specs.declared.holding.Holding.TheVariants as held;
ghost use Rattle.numbered_rows.specs.Numbering.{holds_some, number_of as number_in, one_number, two_numbers};
ghost use Rattle.object_bits.specs.Seen.{seen};
ghost use Rattle.acl_model.specs.declared.row.Row.TheVariants.{Column as ColumnRow, Dynamic as DynamicRow, DynamicGrant as DynamicGrantRow, Function as FunctionRow, Global as GlobalRow, Procedure as ProcedureRow, Schema as SchemaRow, Table as TableRow, Restriction as RestrictionRow, Edge as EdgeRow, Admin as AdminRow, Default as DefaultRow};

use crate::held::number_of;
use account_holdings::{AccountHoldings, GlobalKind};
use acl_items::Items;
use acl_model::{AccountData, Row};
use acl_names::{AuthId, Ident};
use numbered_names::NumberedNames;
use object_bits::ObjectRef;
use std::marker::Model;

/// The rows that stand, what is known of the accounts, and the settings.
///
/// Accounts have numbers that stay while they stand, and each call costs what it touches.
#[derive(Drop)]
pub struct Rows {
    pub(crate) accounts: NumberedNames<AuthId>,
    // What is known of the account of each number.
    pub(crate) account_data: Vec<AccountData>,
    pub(crate) holdings: AccountHoldings,
    pub(crate) mandatory: Items<AuthId>,
    pub(crate) activate_all: bool,
}

impl Model for Rows {
    ghost use Rattle.std.specs.Prelude.{◌-◌, vec_capacity, vec_len};
    ghost use Rattle.row_tables.specs.Tables.{AreSound, Tables, tables_of};

    ghost Value = { Tables };

    ghost view = { λ r. tables_of r.accounts r.account_data.items (vec_capacity r.account_data - vec_len r.account_data)
        r.holdings r.mandatory r.activate_all };

    ghost invariant = { λ r. AreSound (tables_of r.accounts r.account_data.items
        (vec_capacity r.account_data - vec_len r.account_data) r.holdings r.mandatory r.activate_all) };
}

impl Rows {
    ghost use Rattle.acl_model.specs.State.{stands};
    ghost use Rattle.row_tables.specs.Tables.{state_of};

    // The number of the account, which is below 4,096.
    pub(crate) fn number(&self, account: &AuthId) -> Option<u32>
        ensures is { result ≡ number_in self.now.accounts.names account.now }
        ensures within { IfSome result (λ number. number < 4096) }
        ensures known { IfSome result (λ number. number < length self.now.account_data) }
    {
        number_of(&self.accounts, account)
    }

    // Whether the account holds the privilege on `*.*`.
    fn holds_on_all(&self, kind: GlobalKind, account: &AuthId, privilege: u8) -> bool
        ensures { result ≡ holds_some self.now.holdings
            (one_number (λ n. held.OnAll kind n privilege) (number_in self.now.accounts.names account.now)) }
    {
        match self.number(account) {
            Some(number) => self.holdings.holds_on_all(kind, number, privilege),
            None => false,
        }
    }

    /// Whether the account holds the static privilege on `*.*`.
    #[tactic(auto, unfolding(crate::specs::Tables::state_of))]
    pub fn holds_globally(&self, account: &AuthId, privilege: u8) -> bool
        ensures { result ≡ (state_of self.now).rows (GlobalRow account.now privilege) }
    {
        self.holds_on_all(GlobalKind::Static, account, privilege)
    }

    /// Whether the account holds the dynamic privilege.
    #[tactic(auto, unfolding(crate::specs::Tables::state_of))]
    pub fn holds_dynamic(&self, account: &AuthId, privilege: u8) -> bool
        ensures { result ≡ (state_of self.now).rows (DynamicRow account.now privilege) }
    {
        self.holds_on_all(GlobalKind::Dynamic, account, privilege)
    }

    /// Whether the account may grant the dynamic privilege.
    #[tactic(auto, unfolding(crate::specs::Tables::state_of))]
    pub fn may_grant_dynamic(&self, account: &AuthId, privilege: u8) -> bool
        ensures { result ≡ (state_of self.now).rows (DynamicGrantRow account.now privilege) }
    {
        self.holds_on_all(GlobalKind::Grantable, account, privilege)
    }

    /// Whether the account holds the static privilege on the schema.
    #[tactic(auto, unfolding(crate::specs::Tables::state_of))]
    pub fn holds_on_schema(&self, account: &AuthId, schema: &Ident, privilege: u8) -> bool
        ensures { result ≡ (state_of self.now).rows (SchemaRow account.now schema.now privilege) }
    {
        match self.number(account) {
            Some(number) => self.holdings.holds_on_schema(number, schema, privilege),
            None => false,
        }
    }

    // Whether the account holds the privilege on the object.
    fn holds_on_object(&self, account: &AuthId, object: ObjectRef, privilege: u8) -> bool
        ensures { result ≡ holds_some self.now.holdings
            (one_number (λ n. held.OnObject n (seen object.entry) privilege) (number_in self.now.accounts.names account.now)) }
    {
        match self.number(account) {
            Some(number) => self.holdings.holds_on_object(number, object, privilege),
            None => false,
        }
    }

    /// Whether the account holds the static privilege on the table itself, whatever it holds on columns of it.
    #[tactic(auto, unfolding(crate::specs::Tables::state_of))]
    pub fn holds_on_table(
        &self,
        account: &AuthId,
        schema: &Ident,
        table: &Ident,
        privilege: u8,
    ) -> bool
        ensures { result ≡ (state_of self.now).rows
            (TableRow account.now schema.now table.now privilege) }
    {
        self.holds_on_object(account, ObjectRef::Table(schema, table), privilege)
    }

    /// Whether the account holds the static privilege on the column itself, whatever it holds on the table.
    #[tactic(auto, unfolding(crate::specs::Tables::state_of))]
    pub fn holds_on_column(
        &self,
        account: &AuthId,
        schema: &Ident,
        table: &Ident,
        column: &Ident,
        privilege: u8,
    ) -> bool
        ensures { result ≡ (state_of self.now).rows
            (ColumnRow account.now schema.now table.now column.now privilege) }
    {
        self.holds_on_object(account, ObjectRef::Column(schema, table, column), privilege)
    }

    /// Whether the account holds the static privilege on the function.
    #[tactic(auto, unfolding(crate::specs::Tables::state_of))]
    pub fn holds_on_function(
        &self,
        account: &AuthId,
        schema: &Ident,
        name: &Ident,
        privilege: u8,
    ) -> bool
        ensures { result ≡ (state_of self.now).rows
            (FunctionRow account.now schema.now name.now privilege) }
    {
        self.holds_on_object(account, ObjectRef::Function(schema, name), privilege)
    }

    /// Whether the account holds the static privilege on the procedure.
    #[tactic(auto, unfolding(crate::specs::Tables::state_of))]
    pub fn holds_on_procedure(
        &self,
        account: &AuthId,
        schema: &Ident,
        name: &Ident,
        privilege: u8,
    ) -> bool
        ensures { result ≡ (state_of self.now).rows
            (ProcedureRow account.now schema.now name.now privilege) }
    {
        self.holds_on_object(account, ObjectRef::Procedure(schema, name), privilege)
    }

    // Whether the account's privilege on `*.*` does not reach the schema.
    #[tactic(auto, unfolding(crate::specs::Tables::state_of))]
    fn is_restricted(&self, account: &AuthId, schema: &Ident, privilege: u8) -> bool
        ensures { result ≡ (state_of self.now).rows (RestrictionRow account.now privilege schema.now) }
    {
        match self.number(account) {
            Some(number) => self.holdings.is_restricted(number, schema, privilege),
            None => false,
        }
    }

    // Whether the role is granted to the account.
    #[tactic(auto, unfolding(crate::specs::Tables::state_of))]
    fn has_role(&self, role: &AuthId, to: &AuthId) -> bool
        ensures { result ≡ (state_of self.now).rows (EdgeRow role.now to.now) }
    {
        match (self.number(role), self.number(to)) {
            (Some(role), Some(to)) => self.holdings.has_role(role, to),
            _ => false,
        }
    }

    // Whether the account may grant the role.
    #[tactic(auto, unfolding(crate::specs::Tables::state_of))]
    fn may_grant_role(&self, role: &AuthId, to: &AuthId) -> bool
        ensures { result ≡ (state_of self.now).rows (AdminRow role.now to.now) }
    {
        match (self.number(role), self.number(to)) {
            (Some(role), Some(to)) => self.holdings.may_grant_role(role, to),
            _ => false,
        }
    }

    // Whether the role is a default role of the account.
    #[tactic(auto, unfolding(crate::specs::Tables::state_of))]
    fn is_default(&self, of: &AuthId, role: &AuthId) -> bool
        ensures { result ≡ (state_of self.now).rows (DefaultRow of.now role.now) }
    {
        match (self.number(of), self.number(role)) {
            (Some(of), Some(role)) => self.holdings.is_default(of, role),
            _ => false,
        }
    }

    /// Whether the row stands.
    #[tactic(auto, unfolding(crate::specs::Tables::state_of))]
    pub fn held(&self, row: &Row) -> bool
        ensures { result ≡ (state_of self.now).rows row.now }
    {
        match row {
            Row::Account(a) => self.number(a).is_some(),
            Row::Global(a, p) => self.holds_globally(a, *p),
            Row::Dynamic(a, d) => self.holds_dynamic(a, *d),
            Row::DynamicGrant(a, d) => self.may_grant_dynamic(a, *d),
            Row::Schema(a, s, p) => self.holds_on_schema(a, s, *p),
            Row::Table(a, s, t, p) => self.holds_on_table(a, s, t, *p),
            Row::Column(a, s, t, c, p) => self.holds_on_column(a, s, t, c, *p),
            Row::Function(a, s, f, p) => self.holds_on_function(a, s, f, *p),
            Row::Procedure(a, s, f, p) => self.holds_on_procedure(a, s, f, *p),
            Row::Edge { role, to } => self.has_role(role, to),
            Row::Admin { role, to } => self.may_grant_role(role, to),
            Row::Default { of, role } => self.is_default(of, role),
            Row::Restriction(a, p, s) => self.is_restricted(a, s, *p),
        }
    }

    /// What is known of an account; None where it does not stand.
    #[tactic(auto, unfolding(crate::specs::Tables::state_of))]
    pub fn account(&self, account: &AuthId) -> Option<&AccountData>
        ensures value { option_copied result ≡ (state_of self.now).account_data account.now }
        ensures stands { is_some result ≡ stands (state_of self.now) account.now }
    {
        let number = self.number(account)?;
        Some(&self.account_data[number as usize])
    }

    /// The value of mandatory_roles, in its order.
    #[tactic(auto, unfolding(crate::specs::Tables::state_of))]
    pub fn mandatory(&self) -> &[AuthId]
        ensures { result.now ≡ (state_of self.now).mandatory }
    {
        self.mandatory.as_slice()
    }

    /// The value of activate_all_roles_on_login.
    #[tactic(auto, unfolding(crate::specs::Tables::state_of))]
    pub fn activate_all(&self) -> bool
        ensures { result ≡ (state_of self.now).activate_all }
    {
        self.activate_all
    }
}
