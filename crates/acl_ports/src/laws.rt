//! What a caller of any disk knows of the images that a crash may leave.
ghost use Rattle.std.specs.Prelude.{◌≡◌, ◌≤◌, [], ◌∷◌, List, ℕ, Some, length, IfSome, OnOk};
ghost use Rattle.std.specs.Option.{ForSome};
ghost use Rattle.acl_ports.specs.Crash.{IsImageSince, IsTorn, LeavesOnly, all_synced};
ghost use Rattle.acl_ports.specs.Disk.{content_after_write};
ghost use Rattle.acl_ports.specs.Faults.{HasCause};

use crate::{Disk, Failed};

/// Writes these bytes on a disk on which nothing is in doubt, and syncs them.
pub fn write_and_sync<D: Disk>(disk: &mut D, at: u64, bytes: &[u8]) -> Result<(), Failed>
    requires place { ForSome (D.content disk.old) (λ held. at ≤ length held) }
    requires settled { D.pending disk.old (D.moment disk.old) ≡ all_synced (D.content disk.old) }

    // A crash at any moment of the call leaves the bytes outside of the range as they were.
    ensures any_moment { IfSome (D.content disk.old) (λ held.
        LeavesOnly D.moment D.pending disk.old disk.new (IsTorn ((at, length bytes.now) ∷ []) held)) }

    // A read then gives the new bytes, and a crash from now on leaves just what a read gives.
    ensures written { OnOk result (IfSome (D.content disk.old) (λ held.
        D.content disk.new ≡ Some (content_after_write held at bytes.now))) }
    ensures durable { OnOk result (IfSome (D.content disk.old) (λ held. (image : List ℕ)
        → IsImageSince (D.pending disk.new) (D.moment disk.new) (D.moment disk.new) image
        → image ≡ content_after_write held at bytes.now)) }
    ensures cause { HasCause (D.faults disk.old) (D.faults disk.new) result }
{
    disk.write_at(at, bytes)?;
    disk.sync()
}
