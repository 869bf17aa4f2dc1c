//! Privileges on tables, columns and routines.
ghost use Rattle.std.specs.Prelude.{◌≡◌, ◌<◌, OnOk};
ghost use Rattle.object_bits.specs.Seen.{seen};
ghost use Rattle.holding_lists.specs.Additions.{held_on_objects, is_on_object, with_bit, Adds};

use account_holdings::{Holding, has_bit};
use object_bits::{ObjectBits, ObjectRef};
use std::alloc::{AllocError, Global};

fn add_on_object(
    alloc: Global,
    list: &mut Vec<Holding>,
    account: u32,
    object: ObjectRef,
    set: u32,
) -> Result<(), AllocError>
    ensures { OnOk result (Adds list.old.items list.new.items (with_bit (is_on_object account (seen object.entry)) set)) }
{
    for privilege in 0..32 {
        if has_bit(set, privilege) {
            list.push(Holding::OnObject(account, object.copied(alloc)?, privilege))?;
        }
    }
    Ok(())
}

// Adds what the account holds on tables, columns and routines.
pub(crate) fn add_objects(
    alloc: Global,
    list: &mut Vec<Holding>,
    held: &ObjectBits,
    account: u32,
) -> Result<(), AllocError>
    requires { account < 4096 }
    ensures { OnOk result (Adds list.old.items list.new.items (held_on_objects held.now.entries account)) }
{
    held.is_sound();
    for place in held.first_of(account)..held.first_of(account + 1) {
        if let Some((_, object, bits)) = held.get(place) {
            add_on_object(alloc, list, account, object, bits)?;
        }
    }
    Ok(())
}
