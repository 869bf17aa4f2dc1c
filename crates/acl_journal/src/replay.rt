ghost use Rattle.std.specs.Prelude.{◌≡◌, IfOk, false, true};
ghost use Rattle.acl_model.specs.Acceptance.{IsAccepted};
ghost use Rattle.acl_model.specs.Effects.{after};
ghost use Rattle.acl_model.specs.State.{State};

use acl_stmt::Entry;
use std::alloc::{AllocError, Global};

/// What the entries of a journal are carried out on when it is opened, one after the other.
pub trait Replay {
    /// What stands after the entries that were carried out.
    ghost state: { Self → State };

    /// Carries out an entry if it is accepted, and answers whether it is.
    fn replay(&mut self, alloc: Global, entry: &Entry) -> Result<bool, AllocError>
        ensures accepted { IfOk result (λ is_accepted. is_accepted ≡ true → IsAccepted (state self.old) entry.now) }
        ensures refused { IfOk result (λ is_accepted. is_accepted ≡ false → IsAccepted (state self.old) entry.now → ⊥) }
        ensures after { IfOk result (λ is_accepted. is_accepted ≡ true
            → state self.new ≡ after entry.now (state self.old)) };
}
