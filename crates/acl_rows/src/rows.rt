ghost use Rattle.std.specs.Prelude.{◌≡◌, ◌&&◌, ◌||◌, IfOk, OnOk, OnErr, IsTrue, is_some, false};
ghost use Rattle.std.specs.Option.{option_copied};
ghost use Rattle.std.specs.Bool.{MatchBool};
ghost use Rattle.std.specs.List.{list_any};
ghost use Rattle.std.specs.List.Sorted.{IsStrictlySortedBy};
ghost use Rattle.acl_names.specs.AuthId.{auth_cmp, same_auth};
ghost use Rattle.acl_names.specs.declared.auth.AuthId.{AuthId};
ghost use Rattle.acl_model.specs.Counts.{HasMoreThan, IsExceeded};
ghost use Rattle.acl_model.specs.Rows.{holder, lists, same_row, some_name};
ghost use Rattle.acl_model.specs.State.{root as root_account};
ghost use Rattle.acl_model.specs.declared.row.Row.{Row};
ghost use Rattle.acl_model.specs.declared.row.Row.TheVariants.{Column as ColumnRow, Dynamic as DynamicRow, DynamicGrant as DynamicGrantRow, Function as FunctionRow, Global as GlobalRow, Procedure as ProcedureRow, Schema as SchemaRow, Table as TableRow};

use crate::accounts::{
    add_account, copy_accounts, copy_names, find_data, has_account, remove_account, rename_account,
    set_data_of,
};
use crate::grants::{
    account_of, add_grant, add_own_row, copy_grants, grants_naming, grants_of, has_grant,
    remove_grant, rows_renamed,
};
use crate::matching::{
    is_dynamic, is_dynamic_grant, is_global, is_on_column, is_on_function, is_on_procedure,
    is_on_schema, is_on_table,
};
use crate::order::sort_rows;
use crate::uses::{edges, objects, pairs, schemas};
use acl_items::Items;
use acl_model::{AccountData, Row};
use acl_names::{AuthId, HostText, Ident, UserName};
use acl_stmt::Full;
use std::alloc::{AllocError, Global};
use std::marker::Model;

/// The rows that stand, what is known of the accounts, and the settings.
#[derive(Drop)]
pub struct Rows {
    accounts: Vec<(AuthId, AccountData)>,
    grants: Vec<Row>,
    mandatory: Items<AuthId>,
    activate_all: bool,
}

impl Model for Rows {
    ghost use Rattle.std.specs.Prelude.{IsTrue};
    ghost use Rattle.acl_names.specs.AuthId.{same_auth};
    ghost use Rattle.acl_rows.specs.Tables.{Tables, names_of};
    ghost use Rattle.acl_stmt.specs.Lists.{all_differ_by};

    ghost Value = { Tables };

    ghost view = { λ r. record {
      accounts = r.accounts.items;
      grants = r.grants.items;
      mandatory = r.mandatory;
      activate_all = r.activate_all;
    } };

    ghost invariant = { λ r. IsTrue (all_differ_by same_auth (names_of r.accounts.items)) };
}

impl Rows {
    ghost use Rattle.acl_model.specs.State.{stands, opening as opening_state};
    ghost use Rattle.acl_rows.specs.Changes.{renamed, with_data, with_row, without_row};
    ghost use Rattle.acl_rows.specs.Conditions.{HasRoom, IsFreeToGo, IsReadyFor, has_its_level, names_stand};
    ghost use Rattle.acl_rows.specs.Opening.{opening_below};
    ghost use Rattle.acl_rows.specs.Order.{row_cmp};
    ghost use Rattle.acl_rows.specs.Tables.{state_of};

    /// What stands before the first statement: `root`@`localhost` with each privilege on `*.*`, which it may grant.
    pub fn opening(alloc: Global) -> Result<Rows, AllocError>
        ensures { IfOk result (λ rows. state_of rows ≡ opening_state) }
    {
        let mut rows = Rows {
            accounts: Vec::new(alloc),
            grants: Vec::new(alloc),
            mandatory: Items::new(alloc),
            activate_all: false,
        };
        rows.insert(Row::Account(root(alloc)?))?;
        rows.hold_static(alloc)?;
        rows.hold_dynamic(alloc)?;
        Ok(rows)
    }

    fn hold_static(&mut self, alloc: Global) -> Result<(), AllocError>
        requires { state_of self.old ≡ opening_below 0 0 }
        ensures { OnOk result (state_of self.new ≡ opening_below 31 0) }
    {
        for number in 0..31 {
            self.insert(Row::Global(root(alloc)?, number))?;
        }
        Ok(())
    }

    fn hold_dynamic(&mut self, alloc: Global) -> Result<(), AllocError>
        requires { state_of self.old ≡ opening_below 31 0 }
        ensures { OnOk result (state_of self.new ≡ opening_below 31 20) }
    {
        for number in 0..20 {
            self.insert(Row::Dynamic(root(alloc)?, number))?;
            self.insert(Row::DynamicGrant(root(alloc)?, number))?;
        }
        Ok(())
    }

    /// Whether the row stands.
    #[tactic(auto, unfolding(crate::specs::Tables::state_of))]
    pub fn held(&self, row: &Row) -> bool
        ensures { result ≡ (state_of self.now).rows row.now }
    {
        match row {
            Row::Account(account) => has_account(&self.accounts, account),
            _ => has_grant(&self.grants, row),
        }
    }

    /// Whether the account holds the static privilege on `*.*`.
    #[tactic(auto, unfolding(crate::specs::Tables::state_of))]
    pub fn holds_globally(&self, account: &AuthId, privilege: u8) -> bool
        ensures { result ≡ (state_of self.now).rows (GlobalRow account.now privilege) }
    {
        self.grants
            .iter()
            .any(|row| is_global(row, account, privilege))
    }

    /// Whether the account holds the dynamic privilege.
    #[tactic(auto, unfolding(crate::specs::Tables::state_of))]
    pub fn holds_dynamic(&self, account: &AuthId, privilege: u8) -> bool
        ensures { result ≡ (state_of self.now).rows (DynamicRow account.now privilege) }
    {
        self.grants
            .iter()
            .any(|row| is_dynamic(row, account, privilege))
    }

    /// Whether the account may grant the dynamic privilege.
    #[tactic(auto, unfolding(crate::specs::Tables::state_of))]
    pub fn may_grant_dynamic(&self, account: &AuthId, privilege: u8) -> bool
        ensures { result ≡ (state_of self.now).rows (DynamicGrantRow account.now privilege) }
    {
        self.grants
            .iter()
            .any(|row| is_dynamic_grant(row, account, privilege))
    }

    /// Whether the account holds the static privilege on the schema.
    #[tactic(auto, unfolding(crate::specs::Tables::state_of))]
    pub fn holds_on_schema(&self, account: &AuthId, schema: &Ident, privilege: u8) -> bool
        ensures { result ≡ (state_of self.now).rows (SchemaRow account.now schema.now privilege) }
    {
        self.grants
            .iter()
            .any(|row| is_on_schema(row, account, schema, privilege))
    }

    /// Whether the account holds the static privilege on the table itself, whatever it holds on columns of it.
    #[tactic(auto, unfolding(crate::specs::Tables::state_of))]
    pub fn holds_on_table(
        &self,
        account: &AuthId,
        schema: &Ident,
        table: &Ident,
        privilege: u8,
    ) -> bool
        ensures { result ≡ (state_of self.now).rows
            (TableRow account.now schema.now table.now privilege) }
    {
        self.grants
            .iter()
            .any(|row| is_on_table(row, account, schema, table, privilege))
    }

    /// Whether the account holds the static privilege on the column itself, whatever it holds on the table.
    #[tactic(auto, unfolding(crate::specs::Tables::state_of))]
    pub fn holds_on_column(
        &self,
        account: &AuthId,
        schema: &Ident,
        table: &Ident,
        column: &Ident,
        privilege: u8,
    ) -> bool
        ensures { result ≡ (state_of self.now).rows
            (ColumnRow account.now schema.now table.now column.now privilege) }
    {
        self.grants.iter().any(|row| is_on_column(row, account, schema, table, column, privilege))
    }

    /// Whether the account holds the static privilege on the function.
    #[tactic(auto, unfolding(crate::specs::Tables::state_of))]
    pub fn holds_on_function(
        &self,
        account: &AuthId,
        schema: &Ident,
        name: &Ident,
        privilege: u8,
    ) -> bool
        ensures { result ≡ (state_of self.now).rows
            (FunctionRow account.now schema.now name.now privilege) }
    {
        self.grants.iter().any(|row| is_on_function(row, account, schema, name, privilege))
    }

    /// Whether the account holds the static privilege on the procedure.
    #[tactic(auto, unfolding(crate::specs::Tables::state_of))]
    pub fn holds_on_procedure(
        &self,
        account: &AuthId,
        schema: &Ident,
        name: &Ident,
        privilege: u8,
    ) -> bool
        ensures { result ≡ (state_of self.now).rows
            (ProcedureRow account.now schema.now name.now privilege) }
    {
        self.grants.iter().any(|row| is_on_procedure(row, account, schema, name, privilege))
    }

    /// What is known of an account; None where it does not stand.
    #[tactic(auto, unfolding(crate::specs::Tables::state_of))]
    pub fn account(&self, account: &AuthId) -> Option<&AccountData>
        ensures value { option_copied result ≡ (state_of self.now).account_data account.now }
        ensures stands { is_some result ≡ stands (state_of self.now) account.now }
    {
        find_data(&self.accounts, account)
    }

    /// The value of mandatory_roles, in its order.
    #[tactic(auto, unfolding(crate::specs::Tables::state_of))]
    pub fn mandatory(&self) -> &[AuthId]
        ensures { result.now ≡ (state_of self.now).mandatory }
    {
        self.mandatory.as_slice()
    }

    /// The value of activate_all_roles_on_login.
    #[tactic(auto, unfolding(crate::specs::Tables::state_of))]
    pub fn activate_all(&self) -> bool
        ensures { result ≡ (state_of self.now).activate_all }
    {
        self.activate_all
    }

    /// Whether one account more may come.
    #[tactic(auto, unfolding(crate::specs::Tables::state_of))]
    pub fn has_room(&self) -> bool
        ensures { MatchBool result (HasRoom (state_of self.now))
            (HasMoreThan same_auth (λ a. IsTrue (stands (state_of self.now) a)) 4095) }
    {
        self.accounts.len() < 4096
    }

    /// The same rows in memory of their own.
    pub fn copy(&self, alloc: Global) -> Result<Rows, AllocError>
        ensures { IfOk result (λ made. made ≡ self.now) }
    {
        Ok(Rows {
            accounts: copy_accounts(alloc, &self.accounts)?,
            grants: copy_grants(alloc, &self.grants)?,
            mandatory: self.mandatory.copy(alloc)?,
            activate_all: self.activate_all,
        })
    }

    /// Makes the row stand; where it does already, nothing changes. An account that comes has no password, is open and has no
    /// policy.
    pub fn put(&mut self, row: Row) -> Result<(), AllocError>
        requires names { IsTrue (names_stand (state_of self.old) row) }
        requires level { IsTrue (has_its_level row) }
        requires ready { IsReadyFor (state_of self.old) row }
        ensures ok { OnOk result (state_of self.new ≡ with_row row (state_of self.old)) }
        ensures err { OnErr result (self.new ≡ self.old) }
    {
        self.insert(row)
    }

    fn insert(&mut self, row: Row) -> Result<(), AllocError>
        ensures ok { OnOk result (state_of self.new ≡ with_row row (state_of self.old)) }
        ensures err { OnErr result (self.new ≡ self.old) }
    {
        if self.held(&row) {
            return Ok(());
        }
        match account_of(row) {
            Ok(account) => add_account(&mut self.accounts, account),
            Err(other) => add_grant(&mut self.grants, other),
        }
    }

    /// Takes the row away; where it does not stand, nothing changes.
    pub fn take(&mut self, row: &Row)
        requires { IsFreeToGo (state_of self.old) row.now }
        ensures { state_of self.new ≡ without_row row.now (state_of self.old) }
    {
        match row {
            Row::Account(account) => remove_account(&mut self.accounts, account),
            _ => remove_grant(&mut self.grants, row),
        }
    }

    /// Gives an account other data.
    pub fn set_data(&mut self, account: &AuthId, value: AccountData)
        requires { IsTrue (stands (state_of self.old) account.now) }
        ensures { state_of self.new ≡ with_data account.now value (state_of self.old) }
    {
        set_data_of(&mut self.accounts, account, value);
    }

    /// Gives an account another name, in each row that names it.
    pub fn rename(&mut self, alloc: Global, old: &AuthId, new: AuthId) -> Result<(), AllocError>
        requires old { IsTrue (stands (state_of self.old) old.now) }
        requires new { stands (state_of self.old) new ≡ false }
        ensures ok { OnOk result (state_of self.new ≡ renamed old.now new (state_of self.old)) }
        ensures err { OnErr result (self.new ≡ self.old) }
    {
        let grants = rows_renamed(alloc, &self.grants, old, &new)?;
        rename_account(&mut self.accounts, old, new);
        self.grants = grants;
        Ok(())
    }

    /// The accounts that stand, in their order.
    pub fn accounts(&self, alloc: Global) -> Result<Items<AuthId>, AllocError>
        ensures accounts { IfOk result (λ accounts. (a : AuthId) →
            lists accounts a ≡ stands (state_of self.now) a) }
        ensures order { IfOk result (IsStrictlySortedBy auth_cmp) }
    {
        let mut names = copy_names(alloc, &self.accounts)?;
        names.sort()?;
        names.dedup();
        Ok(Items::from_vec(names))
    }

    /// The standing rows that the account holds, in the order of their kinds and then of their fields.
    pub fn rows_of(&self, alloc: Global, account: &AuthId) -> Result<Items<Row>, AllocError>
        ensures rows { IfOk result (λ rows. (row : Row) → list_any (same_row row) rows
            ≡ ((state_of self.now).rows row && same_auth (holder row) account.now)) }
        ensures order { IfOk result (IsStrictlySortedBy row_cmp) }
    {
        let mut rows = grants_of(alloc, &self.grants, account)?;
        add_own_row(
            alloc,
            &mut rows,
            account,
            has_account(&self.accounts, account),
        )?;
        sort_rows(&mut rows)?;
        Ok(Items::from_vec(rows))
    }

    /// The standing rows that name the account, as their holder or as a role, in no order.
    pub fn rows_naming(&self, alloc: Global, account: &AuthId) -> Result<Items<Row>, AllocError>
        ensures { IfOk result (λ rows. (row : Row) → list_any (same_row row) rows
            ≡ ((state_of self.now).rows row && some_name (same_auth account.now) row)) }
    {
        let mut rows = grants_naming(alloc, &self.grants, account)?;
        add_own_row(
            alloc,
            &mut rows,
            account,
            has_account(&self.accounts, account),
        )?;
        Ok(Items::from_vec(rows))
    }

    /// Whether the rows exceed a limit.
    pub fn exceeds(&self, alloc: Global, what: Full) -> Result<bool, AllocError>
        ensures { IfOk result (λ exceeded. MatchBool exceeded (IsExceeded (state_of self.now) what)
            (IsExceeded (state_of self.now) what → ⊥)) }
    {
        match what {
            Full::Accounts => Ok(self.accounts.len() > 4096),
            Full::Schemas => Ok(schemas(alloc, &self.grants)?.len() > 4096),
            Full::Pairs => Ok(pairs(alloc, &self.grants)?.len() > 262_144),
            Full::Objects => Ok(objects(alloc, &self.grants)?.len() > 65_536),
            Full::Edges => Ok(edges(alloc, &self.grants)?.len() > 65_536),
        }
    }
}

fn root(alloc: Global) -> Result<AuthId, AllocError>
    ensures { IfOk result (λ account. account ≡ root_account) }
{
    Ok(AuthId {
        user: UserName::read(alloc, "root").map_err(|_| AllocError)?,
        host: HostText::read(alloc, "localhost").map_err(|_| AllocError)?,
    })
}
