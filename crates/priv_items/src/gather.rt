ghost use Rattle.std.specs.Prelude.{◌≡◌, ℕ, ◌<◌, ◌^◌, ◌||◌, IfOk, IsTrue};
ghost use Rattle.std.specs.List.{list_all};
ghost use Rattle.priv_sets.specs.DynamicSet.{holds_dynamic};
ghost use Rattle.priv_sets.specs.StaticSet.{holds, is_known};
ghost use Rattle.priv_items.specs.Meaning.{IsMeant};
ghost use Rattle.priv_items.specs.Naming.{column_count, is_dynamic, is_plain, items_in, may_stand, names_dynamic, names_plain};

use crate::columns::column_lists;
use crate::{Item, Named};
use acl_items::Items;
use acl_stmt::PrivList;
use priv_sets::{DynSet, Static};
use std::alloc::{AllocError, Global};

/// The list of privileges that is meant by what is named. The expected time is linear in the number of items and columns,
/// since columns are joined by hashing.
///
/// MySQL 8.0 Reference Manual, "GRANT Statement".
pub fn gathered(alloc: Global, named: &Named) -> Result<PrivList, AllocError>
    requires levels { IsTrue (list_all may_stand (items_in named.now)) }
    requires few { column_count (items_in named.now) < 2 ^ 32 }
    ensures { IfOk result (IsMeant named.now) }
{
    match named {
        Named::All => Ok(all_privileges(alloc)),
        Named::Listed(items) => listed_privileges(alloc, items.as_slice()),
    }
}

#[tactic(auto, using(crate::proofs::Lists::all_alone))]
fn all_privileges(alloc: Global) -> PrivList
    ensures { IsMeant Named.All result }
{
    PrivList {
        all: true,
        plain: Static::none(),
        columns: Items::new(alloc),
        dynamic: 0,
    }
}

#[tactic(auto, using(crate::proofs::Lists::listed), unfolding(priv_sets::specs::DynamicSet::holds_dynamic))]
fn listed_privileges(alloc: Global, items: &[Item]) -> Result<PrivList, AllocError>
    requires levels { IsTrue (list_all may_stand items.now) }
    requires few { column_count items.now < 2 ^ 32 }
    ensures { IfOk result (IsMeant (Named.Listed items.now)) }
{
    Ok(PrivList {
        all: false,
        plain: plain_of(items),
        columns: column_lists(alloc, items)?,
        dynamic: dynamic_of(items).held,
    })
}

fn plain_of(items: &[Item]) -> Static
    ensures members { (q : ℕ) → holds result q ≡ names_plain items.now q }
    ensures known { IsTrue (is_known result) }
{
    let mut set = Static::none();
    for item in items {
        set = with_plain(set, item);
    }
    set
}

fn with_plain(set: Static, item: &Item) -> Static
    ensures members { (q : ℕ) → holds result q ≡ (is_plain q item.now || holds set q) }
    ensures known { IsTrue (is_known set) → IsTrue (is_known result) }
{
    match item {
        Item::Plain(plain) => set.with(*plain),
        _ => set,
    }
}

fn dynamic_of(items: &[Item]) -> DynSet
    ensures { (q : ℕ) → holds_dynamic result q ≡ names_dynamic items.now q }
{
    let mut set = DynSet::none();
    for item in items {
        set = with_dynamic(set, item);
    }
    set
}

fn with_dynamic(set: DynSet, item: &Item) -> DynSet
    ensures { (q : ℕ) → holds_dynamic result q ≡ (is_dynamic q item.now || holds_dynamic set q) }
{
    match item {
        Item::Dynamic(dynamic) => set.with(*dynamic, false),
        _ => set,
    }
}
