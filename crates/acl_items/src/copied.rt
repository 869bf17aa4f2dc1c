ghost use Rattle.std.specs.Prelude.{◌≡◌, IfOk};

use std::alloc::{AllocError, Global};

/// A value that can be copied into memory of its own.
pub trait Copied: Drop {
    /// A value equal to this one.
    fn copied(&self, alloc: Global) -> Result<Self, AllocError>
        ensures { IfOk result (λ made. made ≡ self.now) };
}

impl<A: Copied, B: Copied> Copied for (A, B) {
    fn copied(&self, alloc: Global) -> Result<(A, B), AllocError> {
        Ok((self.0.copied(alloc)?, self.1.copied(alloc)?))
    }
}

impl<T: Copied> Copied for Option<T> {
    fn copied(&self, alloc: Global) -> Result<Option<T>, AllocError> {
        match self {
            Some(value) => Ok(Some(value.copied(alloc)?)),
            None => Ok(None),
        }
    }
}
