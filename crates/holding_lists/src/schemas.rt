//! Privileges on schemas, and restrictions.
ghost use Rattle.std.specs.Prelude.{◌≡◌, ◌<◌, OnOk};
ghost use Rattle.holding_lists.specs.Additions.{held_on_schemas, is_on_schema, is_restricted, with_bit, Adds};
ghost use Rattle.holding_lists.specs.Said.{schema_says};

use account_holdings::{Holding, has_bit};
use acl_names::Ident;
use held_bits::{Bits, HeldBits};
use std::alloc::{AllocError, Global};

fn add_granted(
    alloc: Global,
    list: &mut Vec<Holding>,
    account: u32,
    schema: &Ident,
    set: u32,
) -> Result<(), AllocError>
    ensures { OnOk result (Adds list.old.items list.new.items (with_bit (is_on_schema account schema.now) set)) }
{
    for privilege in 0..32 {
        if has_bit(set, privilege) {
            list.push(Holding::OnSchema(account, schema.copy(alloc)?, privilege))?;
        }
    }
    Ok(())
}

fn add_restricted(
    alloc: Global,
    list: &mut Vec<Holding>,
    account: u32,
    schema: &Ident,
    set: u32,
) -> Result<(), AllocError>
    ensures { OnOk result (Adds list.old.items list.new.items (with_bit (is_restricted account schema.now) set)) }
{
    for privilege in 0..32 {
        if has_bit(set, privilege) {
            list.push(Holding::Restricted(account, schema.copy(alloc)?, privilege))?;
        }
    }
    Ok(())
}

fn add_schema(
    alloc: Global,
    list: &mut Vec<Holding>,
    account: u32,
    schema: &Ident,
    bits: Bits,
) -> Result<(), AllocError>
    ensures { OnOk result (Adds list.old.items list.new.items
        (λ h. schema_says h (record { holder = account; thing = schema.now; bits = bits }))) }
{
    add_granted(alloc, list, account, schema, bits.granted)?;
    add_restricted(alloc, list, account, schema, bits.restricted)
}

// Adds what the account holds on schemas, and what is kept from it.
pub(crate) fn add_schemas(
    alloc: Global,
    list: &mut Vec<Holding>,
    held: &HeldBits<Ident>,
    account: u32,
) -> Result<(), AllocError>
    requires { account < 4096 }
    ensures { OnOk result (Adds list.old.items list.new.items (held_on_schemas held.now.entries account)) }
{
    held.is_sound();
    for place in held.first_of(account)..held.first_of(account + 1) {
        if let Some((_, schema, bits)) = held.get(place) {
            add_schema(alloc, list, account, schema, bits)?;
        }
    }
    Ok(())
}
