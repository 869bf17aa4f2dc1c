ghost use Rattle.std.specs.Prelude.{◌≡◌, ℕ, ◌+◌, ◌<◌, ◌^◌, ◌==◌, ◌++◌, [], if◌then◌else◌, IfOk, IsTrue, OnOk, ◌↔◌, map, nat_lt};
ghost use Rattle.std.specs.List.{list_all};
ghost use Rattle.std.specs.Str.{str_to_ascii_lowercase};
ghost use Rattle.indexmap.specs.IndexSet.{insert_all};
ghost use Rattle.acl_names.specs.Text.{text_eq};
ghost use Rattle.acl_stmt.specs.Privileges.{are_in_order};
ghost use Rattle.priv_items.specs.Meaning.{columns_on, each_once};
ghost use Rattle.priv_items.specs.Naming.{column_count, columns_in, columns_of, columns_within, may_stand};

use crate::Item;
use crate::lowered::lowered;
use acl_items::Items;
use acl_names::Ident;
use acl_stmt::ColumnPriv;
use indexmap::IndexSet;
use priv_sets::Plain;
use std::alloc::{AllocError, Global};

/// The privileges that are named with columns, each with the columns of all its lists.
pub(crate) fn column_lists(alloc: Global, items: &[Item]) -> Result<Items<ColumnPriv>, AllocError>
    requires levels { IsTrue (list_all may_stand items.now) }
    requires few { column_count items.now < 2 ^ 32 }
    ensures order { IfOk result (λ lists. IsTrue (are_in_order lists)) }
    ensures columns { IfOk result (λ lists. (q : ℕ) →
        columns_on lists q ≡ each_once (columns_of items.now q)) }
{
    let mut lists = Items::new(alloc);
    for number in 0..31 {
        add_list(alloc, &mut lists, items, Plain::new(number))?;
    }
    Ok(lists)
}

// Adds the columns of one privilege, where it is named with some.
#[tactic(auto, using(crate::proofs::InOrder::order_push))]
fn add_list(
    alloc: Global,
    lists: &mut Items<ColumnPriv>,
    items: &[Item],
    privilege: Plain,
) -> Result<(), AllocError>
    requires levels { IsTrue (list_all may_stand items.now) }
    requires few { column_count items.now < 2 ^ 32 }
    requires order { IsTrue (are_in_order lists.old) }
    requires below { IsTrue (list_all (λ listed. nat_lt listed.privilege privilege) lists.old) }
    ensures order { OnOk result (IsTrue (are_in_order lists.new)) }
    ensures below { OnOk result (IsTrue
        (list_all (λ listed. nat_lt listed.privilege (privilege + 1)) lists.new)) }
    ensures columns { OnOk result ((q : ℕ) → columns_on lists.new q ≡
        columns_on lists.old q ++
        (if q == privilege then each_once (columns_of items.now privilege) else [])) }
{
    let names = joined_columns(alloc, items, privilege)?;
    if names.is_empty() {
        return Ok(());
    }
    lists.push(ColumnPriv {
        privilege: privilege.number(),
        names,
    })
}

// The columns of all lists of a privilege, each once.
#[tactic(auto, using(crate::proofs::EachOnce::inserted_once))]
fn joined_columns(
    alloc: Global,
    items: &[Item],
    privilege: Plain,
) -> Result<Items<Ident>, AllocError>
    ensures { IfOk result (λ names. names ≡ each_once (columns_of items.now privilege)) }
{
    let mut names = IndexSet::new(alloc);
    for item in items {
        add_columns(alloc, &mut names, item, privilege)?;
    }
    taken(alloc, names)
}

/// Whether fewer than 2^32 columns are named.
pub(crate) fn has_few_columns(items: &[Item]) -> bool
    ensures { IsTrue result ↔ (column_count items.now < 2 ^ 32) }
{
    let mut room = (1usize << 32) - 1;
    for item in items {
        let Some(rest) = room.checked_sub(columns_within(item)) else {
            return false;
        };
        room = rest;
    }
    true
}

fn columns_within(item: &Item) -> usize
    ensures { result ≡ columns_within item.now }
{
    match item {
        Item::Columns { columns, .. } => columns.len(),
        _ => 0,
    }
}

fn taken(alloc: Global, names: IndexSet<Ident>) -> Result<Items<Ident>, AllocError>
    ensures { IfOk result (λ list. list ≡ names.keys) }
{
    Ok(Items::from_vec(names.into_iter().collect(alloc)?))
}

fn add_columns(
    alloc: Global,
    names: &mut IndexSet<Ident>,
    item: &Item,
    privilege: Plain,
) -> Result<(), AllocError>
    ensures { OnOk result (names.new.keys ≡
        insert_all text_eq names.old.keys (columns_in privilege item.now)) }
{
    match item {
        Item::Columns {
            privilege: named,
            columns,
        } if *named == privilege => add_names(alloc, names, columns.as_slice()),
        _ => Ok(()),
    }
}

fn add_names(
    alloc: Global,
    names: &mut IndexSet<Ident>,
    columns: &[Ident],
) -> Result<(), AllocError>
    ensures { OnOk result (names.new.keys ≡
        insert_all text_eq names.old.keys (map str_to_ascii_lowercase columns.now)) }
{
    for column in columns {
        names.insert(lowered(alloc, column)?)?;
    }
    Ok(())
}
