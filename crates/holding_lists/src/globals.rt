//! Privileges on `*.*`.
ghost use Rattle.std.specs.Prelude.{◌≡◌, OnOk};
ghost use Rattle.holding_lists.specs.Additions.{held_on_all, is_on_all, with_bit, Adds};

use account_holdings::{GlobalBits, GlobalKind, Holding, has_bit};
use std::alloc::AllocError;

fn add_kind(
    list: &mut Vec<Holding>,
    kind: GlobalKind,
    account: u32,
    set: u32,
) -> Result<(), AllocError>
    ensures { OnOk result (Adds list.old.items list.new.items (with_bit (is_on_all kind account) set)) }
{
    for privilege in 0..32 {
        if has_bit(set, privilege) {
            list.push(Holding::OnAll(kind, account, privilege))?;
        }
    }
    Ok(())
}

// Adds what the account holds on `*.*`.
pub(crate) fn add_globals(
    list: &mut Vec<Holding>,
    account: u32,
    bits: GlobalBits,
) -> Result<(), AllocError>
    ensures { OnOk result (Adds list.old.items list.new.items (held_on_all bits account)) }
{
    add_kind(list, GlobalKind::Static, account, bits.fixed)?;
    add_kind(list, GlobalKind::Dynamic, account, bits.dynamic)?;
    add_kind(list, GlobalKind::Grantable, account, bits.grantable)
}
