//! A value that stands for a list of entries, and what they weigh together.
ghost use Rattle.std.specs.Prelude.{◌≡◌, ◌<◌, ◌^◌, ◌++◌, ◌∷◌, [], false, vec_len, MatchResult};

use acl_items::Copied;
use std::alloc::{AllocError, Global};

/// An entry that owns no memory.
#[derive(Clone, Copy, Debug, PartialEq, Eq, Drop)]
pub struct Weight(pub u32);

impl Copied for Weight {
    fn copied(&self, _alloc: Global) -> Result<Weight, AllocError> {
        Ok(*self)
    }
}

#[derive(Drop)]
pub struct Scale {
    pub entries: Vec<Weight>,
    pub ended: bool,
    pub total: u64,
    ghost within: { vec_len entries < 2 ^ 32 },
}

impl Scale {
    pub fn new(alloc: Global) -> Scale
        ensures { (result.entries.items ≡ []) × (result.ended ≡ false) }
    {
        Scale {
            entries: Vec::new(alloc),
            ended: false,
            total: 0,
        }
    }

    pub fn accept(&mut self, entry: Weight) -> Result<(), AllocError>
        ensures entries { MatchResult result (λ _. self.new.entries.items ≡ self.old.entries.items ++ entry ∷ []) (λ _. self.new.entries.items ≡ self.old.entries.items) }
        ensures ended { self.new.ended ≡ self.old.ended }
    {
        if self.entries.len() >= u32::MAX as usize {
            return Err(AllocError);
        }
        let Ok(()) = self.entries.push(entry) else {
            return Err(AllocError);
        };
        self.total = self.total.wrapping_add(u64::from(entry.0));
        Ok(())
    }
}
