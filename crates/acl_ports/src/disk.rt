// A file of bytes that are read and written at places.
ghost use Rattle.std.specs.Prelude.{◌≡◌, ◌<◌, ◌≤◌, List, ℕ, Option, None, Some, length, IfNone, IfOk, OnOk, OnErr, IfSome, IsSomeAnd};
ghost use Rattle.std.specs.Option.{ForSome};
ghost use Rattle.acl_ports.specs.Crash.{BecomesDirty, BecomesSynced, Elapses, Pending, StaysPending};
ghost use Rattle.acl_ports.specs.Disk.{HasChangedIn, HasChangedWithin, IsReadAt, Stays, content_after_write};
ghost use Rattle.acl_ports.specs.Faults.{HasCause};

use crate::Failed;

/// A file of bytes that are read and written at places, counted in bytes from its front.
///
/// A crash may come at any moment, within a call too: what it may leave then is what it may leave before the call or
/// after it.
pub trait Disk {
    /// The bytes that a read gives, where they are known: told over memory only. What is not known stays so.
    ghost content: { Self → Option (List ℕ) };

    /// How many calls were made. It stays at its last value.
    ghost moment: { Self → ℕ };

    /// What is on the disk and what is in doubt at a moment up to this one, where it is known: told over memory only.
    ghost pending: { Self → ℕ → Option Pending };

    /// How many calls have failed. It stays at its last value.
    ghost faults: { Self → ℕ };

    /// How many bytes the file has.
    fn length(&mut self) -> Result<u64, Failed>
        ensures length { IfOk result (λ count.
            IfSome (content self.old) (λ held. count ≡ length held)) }
        ensures kept { Stays (content self.old) (content self.new) }
        ensures untold { IfNone (content self.old) (content self.new ≡ None) }
        ensures time { Elapses (moment self.old) (moment self.new) (pending self.old) (pending self.new) StaysPending }
        ensures cause { HasCause (faults self.old) (faults self.new) result };

    /// Reads the bytes from that place on to the front of `into`, and answers how many: none past the end. The rest
    /// of `into` may hold anything.
    fn read(&mut self, at: u64, into: &mut [u8]) -> Result<usize, Failed>
        ensures within { IfOk result (λ count. count ≤ length into.new) }
        ensures given { IfOk result (λ count.
            IfSome (content self.old) (λ held. IsReadAt held at into.new count)) }
        ensures progress { IfOk result (λ count. IfSome (content self.old) (λ held.
            at < length held → 0 < length into.new → 0 < count)) }
        ensures kept { Stays (content self.old) (content self.new) }
        ensures untold { IfNone (content self.old) (content self.new ≡ None) }
        ensures time { Elapses (moment self.old) (moment self.new) (pending self.old) (pending self.new) StaysPending }
        ensures cause { HasCause (faults self.old) (faults self.new) result };

    /// Writes all these bytes at that place, over what is there and past the end. A write that fails may have been
    /// done in part. Until a sync succeeds, a crash may leave any bytes in its range.
    fn write_at(&mut self, at: u64, bytes: &[u8]) -> Result<(), Failed>
        requires { ForSome (content self.old) (λ held. at ≤ length held) }
        ensures done { OnOk result (IfSome (content self.old) (λ held.
            content self.new ≡ Some (content_after_write held at bytes.now))) }
        ensures torn { OnErr result (IfSome (content self.old) (λ held.
            IsSomeAnd (content self.new) (HasChangedWithin at (length bytes.now) held))) }
        ensures untold { IfNone (content self.old) (content self.new ≡ None) }
        ensures time { Elapses (moment self.old) (moment self.new) (pending self.old) (pending self.new)
            (BecomesDirty at (length bytes.now) result) }
        ensures cause { HasCause (faults self.old) (faults self.new) result };

    /// Brings all that was written to where a crash leaves it. A sync that fails may change what the writes since the
    /// last one wrote, which stays in doubt.
    fn sync(&mut self) -> Result<(), Failed>
        ensures kept { OnOk result (Stays (content self.old) (content self.new)) }
        ensures doubtful { OnErr result (IfSome (content self.old) (λ held.
            IsSomeAnd (content self.new) (λ next. length held ≤ length next))) }

        // Of the content it changes no more than that.
        ensures torn { OnErr result (IfSome (content self.old) (λ held.
            IfSome (pending self.old (moment self.old)) (λ known.
            IsSomeAnd (content self.new) (HasChangedIn known.dirty held)))) }
        ensures untold { IfNone (content self.old) (content self.new ≡ None) }
        ensures time { Elapses (moment self.old) (moment self.new) (pending self.old) (pending self.new)
            (BecomesSynced (content self.old) result) }
        ensures cause { HasCause (faults self.old) (faults self.new) result };
}
