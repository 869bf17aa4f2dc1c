// Where bytes go.
ghost use Rattle.std.specs.Prelude.{◌<◌, ◌≤◌, List, ℕ, Option, length, IfOk, IfSome};
ghost use Rattle.acl_ports.specs.Faults.{HasCause};
ghost use Rattle.acl_ports.specs.Sink.{Adds};

use crate::Failed;

/// A place that bytes are written to, each behind the one before.
pub trait Sink {
    /// The bytes that were written, where they are known: told over memory only.
    ghost written: { Self → Option (List ℕ) };

    /// How many calls have failed. It stays at its last value.
    ghost faults: { Self → ℕ };

    /// Writes bytes from the front of the piece, and answers how many.
    fn put(&mut self, bytes: &[u8]) -> Result<usize, Failed>
        ensures within { IfOk result (λ count. count ≤ length bytes.now) }
        ensures progress { IfOk result (λ count. 0 < length bytes.now → 0 < count) }
        ensures added { IfSome (written self.old) (λ before.
            Adds before (written self.new) bytes.now result) }
        ensures cause { HasCause (faults self.old) (faults self.new) result };
}
