ghost use Rattle.std.specs.Prelude.{◌≡◌, ℕ, ◌^◌, ◌<◌, List, [], ◌∷◌, ◌++◌, length, IfOk, OnErr};

use acl_names::Caller;
use std::alloc::{AllocError, Global};
use std::sync::Wait;

/// A value that keeps a log of the calls that were made on it, an item for each.
pub trait Logged {
    type Item;

    type Call;

    type Reply;

    /// What replies depend on beside the log. It is plain data, which contracts alone see.
    type Origin;

    ghost log: { Self → List Self.Item };

    ghost origin: { Self → Self.Origin };

    ghost caller_of: { Self.Item → ℕ };

    ghost number_of: { Self.Item → ℕ };

    ghost call_of: { Self.Item → Self.Call };

    // The replies for which an item stands, at an origin.
    ghost stands: { Self.Origin → Self.Item → Self.Reply → Type 0 };

    /// Makes a call and logs it. A call that found no memory is not logged.
    fn apply<R: Wait>(
        &mut self,
        rt: &R,
        alloc: Global,
        caller: Caller,
        number: u32,
        call: Self::Call,
    ) -> Result<Self::Reply, AllocError>
        ensures origin { origin self.new ≡ origin self.old }
        ensures logged { IfOk result (λ reply. (item : Self.Item) × (log self.new ≡ log self.old ++ item ∷ []) × (caller_of item ≡ caller.0) × (number_of item ≡ number) × (call_of item ≡ call) × stands (origin self.new) item reply) }
        ensures bounded { IfOk result (λ _. length (log self.new) < 2 ^ 63) }
        ensures err { OnErr result (log self.new ≡ log self.old) };
}
