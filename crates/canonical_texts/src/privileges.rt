ghost use Rattle.std.specs.Prelude.{◌≡◌, ◌==◌, ◌++◌, ◌<◌, IfOk, OnOk, map, string_bytes};
ghost use Rattle.std.specs.Int.{bit_at};
ghost use Rattle.std.specs.List.{flat_map};
ghost use Rattle.priv_items.specs.Canonical.{columns_at, dynamic_at, each_below, held_by, listed_by, member_if, static_at};
ghost use Rattle.canonical_texts.specs.Privileges.{columns_item, item_text, privileges_text};

use crate::lists::write_list;
use acl_stmt::{ColumnPriv, PrivList};
use priv_sets::{Dynamic, Plain};
use std::alloc::{AllocError, Global};

/// Appends a list of privileges.
pub(crate) fn write_privileges(
    text: &mut String,
    alloc: Global,
    privileges: &PrivList,
) -> Result<(), AllocError>
    ensures { OnOk result (string_bytes text.new ≡ string_bytes text.old ++ privileges_text privileges.now) }
{
    if privileges.all {
        text.push_str(" ALL")
    } else {
        let items = items_or_usage(alloc, privileges)?;
        write_list(text, alloc, " ", ", ", items.as_slice())
    }
}

fn items_or_usage(alloc: Global, privileges: &PrivList) -> Result<Vec<String>, AllocError>
    ensures { IfOk result (λ items. map string_bytes items.items ≡ listed_by item_text privileges.now) }
{
    let mut items = items_of(alloc, privileges)?;
    if items.is_empty() {
        push_if(&mut items, alloc, true, "USAGE")?;
    }
    Ok(items)
}

fn items_of(alloc: Global, privileges: &PrivList) -> Result<Vec<String>, AllocError>
    ensures { IfOk result (λ items. map string_bytes items.items ≡ held_by item_text privileges.now) }
{
    let mut items = Vec::new(alloc);
    push_all_static(&mut items, alloc, privileges)?;
    push_all_dynamic(&mut items, alloc, privileges.dynamic)?;
    Ok(items)
}

fn push_all_static(
    items: &mut Vec<String>,
    alloc: Global,
    privileges: &PrivList,
) -> Result<(), AllocError>
    ensures { OnOk result (map string_bytes items.new.items
        ≡ map string_bytes items.old.items ++ each_below 31 (static_at item_text privileges.now)) }
{
    for number in 0..31u8 {
        push_static(items, alloc, privileges, number)?;
    }
    Ok(())
}

fn push_static(
    items: &mut Vec<String>,
    alloc: Global,
    privileges: &PrivList,
    number: u8,
) -> Result<(), AllocError>
    requires { number < 31 }
    ensures { OnOk result (map string_bytes items.new.items
        ≡ map string_bytes items.old.items ++ static_at item_text privileges.now number) }
{
    let plain = Plain::new(number);
    push_if(items, alloc, privileges.plain.has(plain), plain.name())?;
    push_columns(items, alloc, privileges.columns.as_slice(), plain)
}

fn push_columns(
    items: &mut Vec<String>,
    alloc: Global,
    columns: &[ColumnPriv],
    plain: Plain,
) -> Result<(), AllocError>
    ensures { OnOk result (map string_bytes items.new.items
        ≡ map string_bytes items.old.items ++ flat_map (columns_at item_text plain) columns.now) }
{
    for listed in columns {
        push_columns_at(items, alloc, listed, plain)?;
    }
    Ok(())
}

fn push_columns_at(
    items: &mut Vec<String>,
    alloc: Global,
    columns: &ColumnPriv,
    plain: Plain,
) -> Result<(), AllocError>
    ensures { OnOk result (map string_bytes items.new.items
        ≡ map string_bytes items.old.items ++ columns_at item_text plain columns.now) }
{
    if plain.number() == columns.privilege {
        let item = columns_item(alloc, columns, plain)?;
        items.push(item)?;
    }
    Ok(())
}

fn columns_item(alloc: Global, columns: &ColumnPriv, plain: Plain) -> Result<String, AllocError>
    requires { columns.now.privilege ≡ plain }
    ensures { IfOk result (λ item. string_bytes item ≡ columns_item columns.now) }
{
    let mut item = String::from_str(alloc, plain.name())?;
    write_list(&mut item, alloc, " (", ", ", columns.names.as_slice())?;
    item.push_str(")")?;
    Ok(item)
}

fn push_all_dynamic(items: &mut Vec<String>, alloc: Global, dynamic: u32) -> Result<(), AllocError>
    ensures { OnOk result (map string_bytes items.new.items
        ≡ map string_bytes items.old.items ++ each_below 20 (dynamic_at item_text dynamic)) }
{
    for number in 0..20u8 {
        push_dynamic(items, alloc, dynamic, number)?;
    }
    Ok(())
}

fn push_dynamic(
    items: &mut Vec<String>,
    alloc: Global,
    dynamic: u32,
    number: u8,
) -> Result<(), AllocError>
    requires { number < 20 }
    ensures { OnOk result (map string_bytes items.new.items
        ≡ map string_bytes items.old.items ++ dynamic_at item_text dynamic number) }
{
    let name = Dynamic::new(number).name();
    push_if(items, alloc, has_bit(dynamic, number), name)
}

fn has_bit(dynamic: u32, number: u8) -> bool
    requires { number < 20 }
    ensures { result ≡ (bit_at dynamic number == 1) }
{
    dynamic >> number & 1 == 1
}

/// Appends the item where the test holds.
fn push_if(items: &mut Vec<String>, alloc: Global, test: bool, item: &str) -> Result<(), AllocError>
    ensures { OnOk result (map string_bytes items.new.items
        ≡ map string_bytes items.old.items ++ member_if test item.now) }
{
    if test {
        let item = String::from_str(alloc, item)?;
        items.push(item)?;
    }
    Ok(())
}
