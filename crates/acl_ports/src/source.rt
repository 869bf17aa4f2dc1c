// Where bytes come from.
ghost use Rattle.std.specs.Prelude.{◌≡◌, ◌<◌, ◌≤◌, List, ℕ, Option, [], length, IfOk, IfSome};
ghost use Rattle.acl_ports.specs.Faults.{HasCause};
ghost use Rattle.acl_ports.specs.Source.{Reads};

use crate::Failed;

/// A place that bytes are read from, from its front to its end.
pub trait Source {
    /// The bytes that are left to read, where they are known: told over memory only.
    ghost left: { Self → Option (List ℕ) };

    /// How many calls have failed. It stays at its last value.
    ghost faults: { Self → ℕ };

    /// Reads the next bytes to the front of `into`, and answers how many. The rest of `into` may hold anything.
    fn read(&mut self, into: &mut [u8]) -> Result<usize, Failed>
        ensures within { IfOk result (λ count. count ≤ length into.new) }
        ensures taken { IfSome (left self.old) (λ bytes.
            Reads bytes (left self.new) into.new result) }

        // No byte for a slice that could take one: nothing is left.
        ensures end { result ≡ Ok 0 → 0 < length into.old →
            IfSome (left self.old) (λ bytes. bytes ≡ []) }
        ensures cause { HasCause (faults self.old) (faults self.new) result };
}
