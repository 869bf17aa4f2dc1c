ghost use Rattle.std.specs.Prelude.{◌≡◌};
ghost use Rattle.acl_journal.specs.Refusals.{refusal_at};

use acl_ports::Failed;
use journal_disk::ReadFault;
use std::alloc::AllocError;
use thiserror::Error;

/// Why a journal was not opened.
#[derive(Clone, Copy, Debug, PartialEq, Eq, Error)]
pub enum OpenRefusal {
    /// The file is shorter than a header and a gate, or begins with other bytes.
    #[error("not a journal")]
    NotJournal,
    /// The gate at that offset from the front of the file is missing, or it is open and no accepted entry's record within
    /// the limits begins there.
    #[error("damaged at {offset}")]
    Damaged { offset: u64 },
    #[error("disk fault")]
    DiskFault,
    #[error("no memory")]
    NoMemory,
}

impl From<AllocError> for OpenRefusal {
    ghost use Rattle.acl_journal.specs.declared.refusal.OpenRefusal.TheVariants.{NoMemory};

    ghost from_gives = { λ _ refusal. refusal ≡ NoMemory };

    fn from(_error: AllocError) -> OpenRefusal {
        OpenRefusal::NoMemory
    }
}

impl From<Failed> for OpenRefusal {
    ghost use Rattle.acl_journal.specs.declared.refusal.OpenRefusal.TheVariants.{DiskFault};

    ghost from_gives = { λ _ refusal. refusal ≡ DiskFault };

    fn from(_failed: Failed) -> OpenRefusal {
        OpenRefusal::DiskFault
    }
}

/// What the fault of the record at that offset is told as.
pub(crate) fn refusal_at(fault: ReadFault, offset: u64) -> OpenRefusal
    ensures { result ≡ refusal_at fault offset }
{
    match fault {
        ReadFault::Bad => OpenRefusal::Damaged { offset },
        ReadFault::Disk => OpenRefusal::DiskFault,
        ReadFault::NoMemory => OpenRefusal::NoMemory,
    }
}
