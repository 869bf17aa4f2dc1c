//! The privileges of a set of dynamic ones, one after the other.
use crate::{DynSet, Dynamic};

/// An iterator over the privileges of a set, in order.
#[derive(Clone, Copy, Debug)]
pub struct DynIter {
    pub(crate) rest: DynSet,
}

impl Iterator for DynIter {
    ghost use Rattle.std.specs.Iterator.{YieldsFirst, item_count};
    ghost use Rattle.priv_sets.specs.DynamicIter.{dynamic_left};

    type Item = Dynamic;

    ghost next_gives = { YieldsFirst dynamic_left };

    ghost remaining = { item_count dynamic_left };

    fn next(&mut self) -> Option<Dynamic> {
        let Some(first) = self.rest.first() else {
            return None;
        };
        self.rest = self.rest.without(first);
        Some(first)
    }
}
