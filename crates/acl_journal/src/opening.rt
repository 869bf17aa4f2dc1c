//! A journal is opened.

ghost use Rattle.std.specs.Prelude.{◌≡◌, ◌⊎◌, ◌≤◌, ℕ, Some, IfErr, IfOk, IfSome};
ghost use Rattle.acl_model.specs.Effects.{state_after};
ghost use Rattle.acl_ports.specs.Crash.{IsImage, LeavesOnly};
ghost use Rattle.acl_ports.specs.Faults.{next_count};
ghost use Rattle.acl_journal.specs.Refusals.{IsOpenRefusal};
ghost use Rattle.journal_bytes.specs.Files.{StandsFor};
ghost use Rattle.journal_disk.specs.Held.{HasBytesUpTo};

use crate::gate::LastGate;
use crate::recovery::recover;
use crate::{Journal, OpenRefusal, Replay};
use acl_items::Items;
use acl_ports::Disk;
use acl_stmt::Entry;
use std::alloc::Global;

/// A journal that was opened, and its entries, the oldest first.
#[derive(Drop)]
pub struct Opened<D: Disk> {
    pub journal: Journal<D>,
    pub entries: Items<Entry>,
}

impl<D: Disk> Journal<D> {
    ghost use Rattle.acl_journal.specs.Journal.{IsSettledFor, disk_of, size_of};
    ghost use Rattle.acl_journal.specs.Opened.{disk_in};

    /// Opens the journal on a disk, after a sync of it, and carries out its entries on `replay`. It is read in pieces, and
    /// takes memory for its entries and for one record. What stands behind the last gate is not read.
    pub fn open<R: Replay>(
        alloc: Global,
        mut disk: D,
        replay: &mut R,
    ) -> Result<Opened<D>, (OpenRefusal, D)>
        // The entries are those of the list for which the file stands.
        ensures list { IfSome (D.content disk) (λ held. IfOk result (λ opened.
            StandsFor (R.state replay.old) held opened.entries)) }
        ensures journal { IfOk result (λ opened. IsSettledFor D.content D.moment D.pending (R.state replay.old)
            opened.journal opened.entries) }
        ensures place { IfOk result (λ opened.
            HasBytesUpTo (D.content (disk_of opened.journal)) (size_of opened.journal)) }
        ensures state { IfOk result (λ opened. R.state replay.new ≡ state_after opened.entries (R.state replay.old)) }

        // Every other file is refused exactly.
        ensures err { IfSome (D.content disk) (λ held. IfErr result (λ refused.
            IsOpenRefusal (R.state replay.old) held refused.0)) }
        ensures cause { IfErr result (λ refused. refused.0 ≡ OpenRefusal.DiskFault
            → next_count (D.faults disk) ≤ D.faults refused.1) }
        ensures faults { D.faults disk ≤ D.faults (disk_in result) }

        // Nothing is written: a crash leaves what it might have left before, or what a read gives.
        ensures kept { IfSome (D.content disk) (λ held. IfErr result (λ refused.
            (refused.0 ≡ OpenRefusal.DiskFault) ⊎ (D.content refused.1 ≡ Some held))) }
        ensures any_moment { IfSome (D.content disk) (λ held.
            LeavesOnly D.moment D.pending disk (disk_in result) (λ image.
            IsImage (D.pending disk (D.moment disk)) image ⊎ (image ≡ held))) }
    {
        let mut entries = Items::new(alloc);
        match recover(alloc, &mut disk, replay, &mut entries) {
            Ok(offset) => Ok(Opened {
                journal: Journal {
                    disk,
                    gate: LastGate { offset },
                    settled: true,
                },
                entries,
            }),
            Err(refusal) => Err((refusal, disk)),
        }
    }
}
