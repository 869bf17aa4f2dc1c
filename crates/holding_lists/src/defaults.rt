//! Default roles.
ghost use Rattle.std.specs.Prelude.{◌≡◌, ◌<◌, OnOk};
ghost use Rattle.holding_lists.specs.Additions.{default_of, defaults_held, Adds};

use account_holdings::{Holding, RoleNumber};
use held_bits::HeldBits;
use std::alloc::AllocError;

// Adds the default roles of the account.
pub(crate) fn add_defaults(
    list: &mut Vec<Holding>,
    held: &HeldBits<RoleNumber>,
    account: u32,
) -> Result<(), AllocError>
    requires { account < 4096 }
    ensures { OnOk result (Adds list.old.items list.new.items (defaults_held held.now.entries account)) }
{
    held.is_sound();
    for place in held.first_of(account)..held.first_of(account + 1) {
        if let Some((_, role, _)) = held.get(place) {
            list.push(Holding::Default(account, role.0))?;
        }
    }
    Ok(())
}

// Adds whose default role the account is. It walks through all default roles where the account is one of them.
pub(crate) fn add_default_of(
    list: &mut Vec<Holding>,
    held: &HeldBits<RoleNumber>,
    account: u32,
) -> Result<(), AllocError>
    ensures { OnOk result (Adds list.old.items list.new.items (default_of held.now.entries account)) }
{
    held.is_sound();
    if held.uses_of(&RoleNumber(account)) == 0 {
        return Ok(());
    }
    for place in 0..held.len() {
        if let Some((of, role, _)) = held.get(place) {
            if role.0 == account {
                list.push(Holding::Default(of, account))?;
            }
        }
    }
    Ok(())
}
