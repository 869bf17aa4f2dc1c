//! Rows and accounts in lists.
ghost use Rattle.std.specs.Prelude.{◌≡◌, ◌&&◌, ◌++◌, ◌∷◌, [], IfOk, map};
ghost use Rattle.std.specs.List.{list_any};
ghost use Rattle.std.specs.List.Sorted.{IsStrictlySortedBy};
ghost use Rattle.account_holdings.specs.Holdings.{names_number};
ghost use Rattle.acl_model.specs.Rows.{holder, lists, same_row, some_name};
ghost use Rattle.acl_model.specs.State.{stands, root as root_account};
ghost use Rattle.acl_model.specs.declared.row.Row.{Row as RowValue};
ghost use Rattle.acl_names.specs.AuthId.{auth_cmp, same_auth};
ghost use Rattle.acl_names.specs.declared.auth.AuthId.{AuthId as AuthIdValue};
ghost use Rattle.row_tables.specs.Order.{row_cmp};
ghost use Rattle.row_tables.specs.Tables.{state_of};
ghost use Rattle.numbered_rows.specs.NamedRows.{name_of, object_row as object_row_of, row_of as row_in};

use crate::order::sort_rows;
use crate::rows::Rows;
use account_holdings::{GlobalKind, Holding};
use acl_items::Items;
use acl_model::Row;
use acl_names::{AuthId, HostText, UserName};
use holding_lists::{holdings_naming, holdings_of};
use numbered_names::NumberedNames;
use object_bits::Object;
use std::alloc::{AllocError, Global};

/// The account that stands before the first statement.
pub(crate) fn root(alloc: Global) -> Result<AuthId, AllocError>
    ensures { IfOk result (λ account. account ≡ root_account) }
{
    Ok(AuthId {
        user: UserName::read(alloc, "root").map_err(|_| AllocError)?,
        host: HostText::read(alloc, "localhost").map_err(|_| AllocError)?,
    })
}

// The account of a number. No holding has a number that is free; for it root stands in.
fn account_of(
    alloc: Global,
    names: &NumberedNames<AuthId>,
    number: u32,
) -> Result<AuthId, AllocError>
    ensures { IfOk result (λ account. account ≡ name_of names.now.names number) }
{
    match names.name_of(number) {
        Some(account) => account.copy(alloc),
        None => root(alloc),
    }
}

fn object_row(
    alloc: Global,
    account: AuthId,
    object: &Object,
    privilege: u8,
) -> Result<Row, AllocError>
    ensures { IfOk result (λ row. row ≡ object_row_of account object.now privilege) }
{
    Ok(match object {
        Object::Table(s, t) => Row::Table(account, s.copy(alloc)?, t.copy(alloc)?, privilege),
        Object::Column(s, t, c) => Row::Column(
            account,
            s.copy(alloc)?,
            t.copy(alloc)?,
            c.copy(alloc)?,
            privilege,
        ),
        Object::Function(s, f) => Row::Function(account, s.copy(alloc)?, f.copy(alloc)?, privilege),
        Object::Procedure(s, f) => {
            Row::Procedure(account, s.copy(alloc)?, f.copy(alloc)?, privilege)
        }
    })
}

// The row that says what is held.
fn row_of(
    alloc: Global,
    names: &NumberedNames<AuthId>,
    holding: &Holding,
) -> Result<Row, AllocError>
    ensures { IfOk result (λ row. row ≡ row_in names.now.names holding.now) }
{
    let name = |number: &u32| account_of(alloc, names, *number);
    match holding {
        Holding::OnAll(GlobalKind::Static, n, p) => Ok(Row::Global(name(n)?, *p)),
        Holding::OnAll(GlobalKind::Dynamic, n, p) => Ok(Row::Dynamic(name(n)?, *p)),
        Holding::OnAll(GlobalKind::Grantable, n, p) => Ok(Row::DynamicGrant(name(n)?, *p)),
        Holding::OnSchema(n, s, p) => Ok(Row::Schema(name(n)?, s.copy(alloc)?, *p)),
        Holding::Restricted(n, s, p) => Ok(Row::Restriction(name(n)?, *p, s.copy(alloc)?)),
        Holding::OnObject(n, object, p) => object_row(alloc, name(n)?, object, *p),
        Holding::Edge(role, to) => Ok(Row::Edge {
            role: name(role)?,
            to: name(to)?,
        }),
        Holding::Admin(role, to) => Ok(Row::Admin {
            role: name(role)?,
            to: name(to)?,
        }),
        Holding::Default(of, role) => Ok(Row::Default {
            of: name(of)?,
            role: name(role)?,
        }),
    }
}

// The rows that say what is held, and that of the account itself.
fn rows_with_own(
    alloc: Global,
    names: &NumberedNames<AuthId>,
    held: &[Holding],
    account: &AuthId,
) -> Result<Vec<Row>, AllocError>
    ensures { IfOk result (λ rows. rows.items ≡
        map (row_in names.now.names) held.now ++ RowValue.Account account.now ∷ []) }
{
    let mut rows = Vec::new(alloc);
    for holding in held {
        rows.push(row_of(alloc, names, holding)?)?;
    }
    rows.push(Row::Account(account.copy(alloc)?))?;
    Ok(rows)
}

fn copies(alloc: Global, names: &[AuthId]) -> Result<Vec<AuthId>, AllocError>
    ensures { IfOk result (λ made. made.items ≡ names.now) }
{
    let mut made = Vec::with_capacity(alloc, names.len())?;
    for name in names {
        made.push(name.copy(alloc)?)?;
    }
    Ok(made)
}

impl Rows {
    /// The accounts that stand, in their order.
    pub fn accounts(&self, alloc: Global) -> Result<Items<AuthId>, AllocError>
        ensures accounts { IfOk result (λ accounts. (a : AuthIdValue) →
            lists accounts a ≡ stands (state_of self.now) a) }
        ensures order { IfOk result (IsStrictlySortedBy auth_cmp) }
    {
        let mut names = copies(alloc, self.accounts.as_slice())?;
        names.sort()?;
        names.dedup();
        Ok(Items::from_vec(names))
    }

    /// The standing rows that the account holds, in the order of their kinds and then of their fields.
    pub fn rows_of(&self, alloc: Global, account: &AuthId) -> Result<Items<Row>, AllocError>
        ensures rows { IfOk result (λ rows. (row : RowValue) → list_any (same_row row) rows
            ≡ ((state_of self.now).rows row && same_auth (holder row) account.now)) }
        ensures order { IfOk result (IsStrictlySortedBy row_cmp) }
    {
        let mut rows = self.held_rows(alloc, account)?;
        sort_rows(&mut rows)?;
        Ok(Items::from_vec(rows))
    }

    fn held_rows(&self, alloc: Global, account: &AuthId) -> Result<Vec<Row>, AllocError>
        ensures { IfOk result (λ rows. (row : RowValue) → list_any (same_row row) rows.items
            ≡ ((state_of self.now).rows row && same_auth (holder row) account.now)) }
    {
        let Some(number) = self.number(account) else {
            return Ok(Vec::new(alloc));
        };
        let held = holdings_of(alloc, &self.holdings, number)?;
        rows_with_own(alloc, &self.accounts, &held, account)
    }

    /// The standing rows that name the account, as their holder or as a role, in no order.
    pub fn rows_naming(&self, alloc: Global, account: &AuthId) -> Result<Items<Row>, AllocError>
        ensures { IfOk result (λ rows. (row : RowValue) → list_any (same_row row) rows
            ≡ ((state_of self.now).rows row && some_name (same_auth account.now) row)) }
    {
        let Some(number) = self.number(account) else {
            return Ok(Items::new(alloc));
        };
        let held = holdings_naming(alloc, &self.holdings, number)?;
        Ok(Items::from_vec(rows_with_own(alloc, &self.accounts, &held, account)?))
    }
}
