ghost use Rattle.std.specs.Prelude.{◌≡◌, ◌<◌, ◌==◌, ◌&&◌, IfOk};
ghost use Rattle.std.specs.List.{list_any};
ghost use Rattle.account_holdings.specs.Holdings.{holds, names_number, same_holding};
ghost use Rattle.account_holdings.specs.declared.holding.Holding.{Holding as HoldingValue};
ghost use Rattle.holding_lists.specs.Holders.{holder_of};

use crate::defaults::{add_default_of, add_defaults};
use crate::globals::add_globals;
use crate::objects::add_objects;
use crate::roles::{add_holders, add_roles};
use crate::schemas::add_schemas;
use account_holdings::{AccountHoldings, Holding};
use std::alloc::{AllocError, Global};

/// All that the account holds, in no order that is promised. It costs what the account holds.
///
/// MySQL 8.0 Reference Manual, "Grant Tables".
pub fn holdings_of(
    alloc: Global,
    holdings: &AccountHoldings,
    account: u32,
) -> Result<Vec<Holding>, AllocError>
    requires { account < 4096 }
    ensures { IfOk result (λ list. (h : HoldingValue) →
        list_any (same_holding h) list.items ≡ (holds holdings.now h && holder_of h == account)) }
{
    let mut list = Vec::new(alloc);
    add_globals(&mut list, account, holdings.globals_of(account))?;
    add_schemas(alloc, &mut list, holdings.schemas(), account)?;
    add_objects(alloc, &mut list, holdings.objects(), account)?;
    add_roles(&mut list, holdings.roles(), account)?;
    add_defaults(&mut list, holdings.defaults(), account)?;
    Ok(list)
}

/// All that names the account, as the holder or as a role, in no order that is promised. A holding may stand twice.
///
/// It costs what the account holds and how many accounts have it as a role; where it is a default role, all default roles.
pub fn holdings_naming(
    alloc: Global,
    holdings: &AccountHoldings,
    account: u32,
) -> Result<Vec<Holding>, AllocError>
    requires { account < 4096 }
    ensures { IfOk result (λ list. (h : HoldingValue) →
        list_any (same_holding h) list.items ≡ (holds holdings.now h && names_number account h)) }
{
    let mut list = holdings_of(alloc, holdings, account)?;
    add_holders(&mut list, holdings, account)?;
    add_default_of(&mut list, holdings.defaults(), account)?;
    Ok(list)
}
