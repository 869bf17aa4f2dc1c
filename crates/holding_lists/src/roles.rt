//! Roles that are granted.
ghost use Rattle.std.specs.Prelude.{◌≡◌, ◌<◌, OnOk};
ghost use Rattle.holding_lists.specs.Additions.{holders_held, roles_held, Adds};
ghost use Rattle.holding_lists.specs.Said.{edge_says};

use account_holdings::{AccountHoldings, Holding};
use role_graph::Graph;
use std::alloc::AllocError;

fn add_role(list: &mut Vec<Holding>, role: u32, to: u32, admin: bool) -> Result<(), AllocError>
    ensures { OnOk result (Adds list.old.items list.new.items (edge_says role to admin)) }
{
    list.push(Holding::Edge(role, to))?;
    if admin {
        list.push(Holding::Admin(role, to))?;
    }
    Ok(())
}

// Adds the roles of the account, and which of them it may grant.
pub(crate) fn add_roles(
    list: &mut Vec<Holding>,
    roles: &Graph,
    account: u32,
) -> Result<(), AllocError>
    requires { account < 4096 }
    ensures { OnOk result (Adds list.old.items list.new.items (roles_held roles.now account)) }
{
    for link in roles.roles_of(account) {
        add_role(list, link.to, account, link.admin)?;
    }
    Ok(())
}

// Adds whose role the account is, and who of them may grant it.
pub(crate) fn add_holders(
    list: &mut Vec<Holding>,
    holdings: &AccountHoldings,
    account: u32,
) -> Result<(), AllocError>
    requires { account < 4096 }
    ensures { OnOk result (Adds list.old.items list.new.items (holders_held holdings.now.roles account)) }
{
    for link in holdings.roles().holders_of(account) {
        let admin = holdings.may_grant_role(account, link.to);
        add_role(list, account, link.to, admin)?;
    }
    Ok(())
}
