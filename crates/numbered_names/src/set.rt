//! Edits of a set of names by place.
ghost use Rattle.std.specs.Prelude.{◌≡◌, ◌+◌, ◌<◌, ◌≤◌, ◌++◌, ◌∷◌, [], false, slice_set, IfOk};
ghost use Rattle.indexmap.specs.IndexSet.{IsUnique, contains, index_set_len, spare};

use acl_items::Copied;
use indexmap::IndexSet;
use std::alloc::{AllocError, Global};
use std::hash::Hash;

// Puts a new name behind the others.
pub fn push<K: Eq + Hash + Drop>(names: &mut IndexSet<K>, name: K)
    requires new { contains K.eq names.old name ≡ false }
    requires room { 0 < spare names.old }
    ensures keys { names.new.keys ≡ names.old.keys ++ name ∷ [] }
    ensures len { index_set_len names.new ≡ index_set_len names.old + 1 }
    ensures unique { IsUnique K.eq names.new }
    ensures spare { spare names.old ≤ spare names.new + 1 }
{
    names.insert(name).unwrap();
}

// Puts a new name in place of another.
pub fn replace<K: Eq + Hash + Drop>(names: &mut IndexSet<K>, place: usize, name: K)
    requires place { place < index_set_len names.old }
    requires new { contains K.eq names.old name ≡ false }
    requires room { 0 < spare names.old }
    ensures keys { names.new.keys ≡ slice_set names.old.keys place name }
    ensures len { index_set_len names.new ≡ index_set_len names.old }
    ensures unique { IsUnique K.eq names.new }
    ensures spare { spare names.old ≤ spare names.new + 1 }
{
    push(names, name);
    names.swap_remove_index(place);
}

// The same names in the same order, in memory of their own.
pub fn copy_of<K: Eq + Hash + Copied>(
    alloc: Global,
    names: &IndexSet<K>,
) -> Result<IndexSet<K>, AllocError>
    ensures keys { IfOk result (λ made. made.keys ≡ names.now.keys) }
    ensures unique { IfOk result (IsUnique K.eq) }
{
    let mut made = IndexSet::with_capacity(alloc, names.len())?;
    for name in names.as_slice() {
        made.insert(name.copied(alloc)?)?;
    }
    Ok(made)
}
