//! Accounts as nodes of the graph of roles.
ghost use Rattle.std.specs.Prelude.{◌≡◌, ◌<◌, IfSome, IsTrue, Some};
ghost use Rattle.std.specs.Option.{option_copied};
ghost use Rattle.acl_model.specs.declared.row.Row.{Row as RowValue};
ghost use Rattle.acl_model.specs.declared.row.Row.TheVariants.{Admin as AdminRow, Dynamic as DynamicRow, DynamicGrant as DynamicGrantRow, Edge as EdgeRow};
ghost use Rattle.acl_names.specs.declared.auth.AuthId.{AuthId as AuthIdValue};
ghost use Rattle.row_tables.specs.Conditions.{has_its_level, names_stand};
ghost use Rattle.row_tables.specs.Tables.{state_of};
ghost use Rattle.numbered_names.specs.Numbered.{name_at};
ghost use Rattle.numbered_rows.specs.Numbering.{number_of as number_in};
ghost use Rattle.role_graph.specs.Edges.{granted, with_admin};
ghost use Rattle.std.specs.Prelude.{ℕ};

use crate::rows::Rows;
use acl_names::AuthId;
use role_graph::Graph;

impl Rows {
    /// The graph of granted roles over the nodes of accounts: its edges are the rows of granted roles, and their admin options
    /// the rows of the right to grant them.
    #[tactic(auto, unfolding(crate::specs::Tables::state_of))]
    pub fn graph(&self) -> &Graph
        ensures edges { (role to : AuthIdValue) (m n : ℕ) → number_in self.now.accounts.names role ≡ Some m →
            number_in self.now.accounts.names to ≡ Some n →
            granted result.now m n ≡ (state_of self.now).rows (EdgeRow role to) }
        ensures options { (role to : AuthIdValue) (m n : ℕ) → number_in self.now.accounts.names role ≡ Some m →
            number_in self.now.accounts.names to ≡ Some n →
            with_admin result.now m n ≡ (state_of self.now).rows (AdminRow role to) }
        ensures roles { result.now ≡ self.now.holdings.roles }
    {
        self.holdings.roles()
    }

    /// The node of the account, which is below 4,096 and stays while the account stands. None where it does not stand.
    pub fn node_of(&self, account: &AuthId) -> Option<u32>
        ensures is { result ≡ number_in self.now.accounts.names account.now }
        ensures within { IfSome result (λ node. node < 4096) }
    {
        self.number(account)
    }

    /// The account of the node, None where no account has it.
    pub fn account_at(&self, node: u32) -> Option<&AuthId>
        ensures { option_copied result ≡ name_at self.now.accounts.names node }
    {
        self.accounts.name_of(node)
    }

    /// The law that the right to grant a privilege or a role stands beside it. It does nothing when it runs.
    pub fn options_stand_beside(&self)
        ensures privileges { (a : AuthIdValue) (d : ℕ) → IsTrue ((state_of self.now).rows (DynamicGrantRow a d)) →
            IsTrue ((state_of self.now).rows (DynamicRow a d)) }
        ensures roles { (role to : AuthIdValue) → IsTrue ((state_of self.now).rows (AdminRow role to)) →
            IsTrue ((state_of self.now).rows (EdgeRow role to)) }
    {
        let _ = &self.holdings;
    }

    /// The law that each row's privilege has the level of the row. It does nothing when it runs.
    pub fn rows_have_levels(&self)
        ensures { (row : RowValue) → IsTrue ((state_of self.now).rows row) → IsTrue (has_its_level row) }
    {
        let _ = &self.holdings;
    }

    /// The law that the accounts that a row names stand. It does nothing when it runs.
    pub fn rows_name_accounts(&self)
        ensures { (row : RowValue) → IsTrue ((state_of self.now).rows row) → IsTrue (names_stand (state_of self.now) row) }
    {
        let _ = &self.holdings;
    }
}
