//! The privileges of a set, one after the other.
use crate::{Plain, Static};

/// An iterator over the privileges of a set, in order.
#[derive(Clone, Copy, Debug)]
pub struct StaticIter {
    pub(crate) rest: Static,
}

impl Iterator for StaticIter {
    ghost use Rattle.std.specs.Iterator.{YieldsFirst, item_count};
    ghost use Rattle.priv_sets.specs.StaticIter.{left};

    type Item = Plain;

    ghost next_gives = { YieldsFirst left };

    ghost remaining = { item_count left };

    fn next(&mut self) -> Option<Plain> {
        let Some(first) = self.rest.first() else {
            return None;
        };
        self.rest = self.rest.without(first);
        Some(first)
    }
}
