ghost use Rattle.std.specs.Prelude.{◌≡◌, ◌↔◌, [], IsTrue, ◌∷◌, ◌++◌, length, slice_get, IfOk, OnErr, OnOk};
ghost use Rattle.std.proofs.Common.{rules};
ghost use Rattle.std.specs.Cmp.Lexicographic.{lists_agrees, lists_po, lists_ties, lists_total, pointwise, slice_cmp, slice_partial_cmp};
ghost use Rattle.std.specs.Cmp.Rules.{comparing};
ghost use Rattle.std.specs.Option.{option_copied};

use crate::Copied;
use std::alloc::{AllocError, Global};
use std::cmp::Ordering;
use std::marker::Model;

/// A list of owned values, which contracts see as the list of its items.
#[derive(Debug, Drop)]
pub struct Items<T> {
    list: Vec<T>,
}

impl<T> Model for Items<T> {
    ghost use Rattle.std.specs.Prelude.{List};
    ghost use Rattle.std.specs.Coded.{coded_list};

    ghost Value = { List T };

    ghost coded = { coded_list T.code };

    ghost view = { λ i. i.list.items };
}

impl<T> Items<T> {
    /// The list without items. It takes no memory until the first one comes.
    pub fn new(alloc: Global) -> Items<T>
        ensures { result ≡ [] }
    {
        Items {
            list: Vec::new(alloc),
        }
    }

    /// The list of what a vector holds, in the vector's own memory.
    pub fn from_vec(list: Vec<T>) -> Items<T>
        ensures { result ≡ list.items }
    {
        Items { list }
    }

    /// The vector of the items, in the list's own memory.
    pub fn into_vec(self) -> Vec<T>
        ensures { result.items ≡ self }
    {
        let Items { list } = self;
        list
    }

    /// The items, in order.
    pub fn as_slice(&self) -> &[T]
        ensures { result.now ≡ self.now }
    {
        self.list.as_slice()
    }

    /// The number of items.
    pub fn len(&self) -> usize
        ensures { result ≡ length self.now }
    {
        self.list.len()
    }

    /// Whether there is no item.
    pub fn is_empty(&self) -> bool
        ensures { IsTrue result ↔ (self.now ≡ []) }
    {
        self.list.is_empty()
    }

    /// The item at a place, counted from 0; None from the number of items on.
    pub fn get(&self, at: usize) -> Option<&T>
        ensures { option_copied result ≡ slice_get self.now at }
    {
        self.list.get(at)
    }

    /// Puts an item behind the last one. An error leaves the list as it was.
    pub fn push(&mut self, item: T) -> Result<(), AllocError>
    where
        T: Drop,
        ensures ok { OnOk result (self.new ≡ self.old ++ item ∷ []) }
        ensures err { OnErr result (self.new ≡ self.old) }
    {
        self.list.push(item)?;
        Ok(())
    }
}

impl<T: Copied> Items<T> {
    /// The same items in memory of their own.
    pub fn copy(&self, alloc: Global) -> Result<Items<T>, AllocError>
        ensures { IfOk result (λ made. made ≡ self.now) }
    {
        let mut list = Vec::with_capacity(alloc, self.list.len())?;
        for item in &self.list {
            list.push(item.copied(alloc)?)?;
        }
        Ok(Items { list })
    }
}

impl<T: Copied> Copied for Items<T> {
    fn copied(&self, alloc: Global) -> Result<Items<T>, AllocError> {
        self.copy(alloc)
    }
}

impl<T: PartialEq> PartialEq for Items<T> {
    ghost eq = { pointwise T.eq };

    ghost laws = { Prim.search (comparing, rules) };

    fn eq(&self, other: &Items<T>) -> bool {
        self.list == other.list
    }
}

impl<T: Eq> Eq for Items<T> {
    ghost laws = { Prim.search (comparing, rules) };
}

impl<T: PartialOrd> PartialOrd for Items<T> {
    ghost partial_cmp = { slice_partial_cmp T.partial_cmp };

    ghost laws = { lists_po T.PartialOrd.laws };

    fn partial_cmp(&self, other: &Items<T>) -> Option<Ordering> {
        self.list.partial_cmp(&other.list)
    }
}

impl<T: Ord> Ord for Items<T> {
    ghost cmp = { slice_cmp T.cmp };

    ghost total = { lists_total T.total };

    ghost matches_partial_cmp = { lists_agrees T.matches_partial_cmp };

    ghost matches_eq = { lists_ties T.cmp T.matches_eq };

    fn cmp(&self, other: &Items<T>) -> Ordering {
        self.list.cmp(&other.list)
    }
}
