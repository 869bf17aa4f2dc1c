//! The first fault of bytes that are no fields of an entry.

ghost use Rattle.std.specs.Prelude.{◌≡◌, length};
ghost use Rattle.entry_reading.specs.Faults.{placed};

use entry_fields::FieldFault;
use std::alloc::AllocError;

/// Why the fields were not read.
#[derive(Debug, Drop)]
pub(crate) enum Fault {
    /// The first field that is cut short or out of its rules, or the first byte too many: so many bytes are left from
    /// its start on.
    Bad { left: usize },
    NoMemory,
}

impl From<AllocError> for Fault {
    ghost use Rattle.entry_reading.specs.declared.fault.Fault.TheVariants.{NoMemory};

    ghost from_gives = { λ _ fault. fault ≡ NoMemory };

    fn from(_error: AllocError) -> Fault {
        Fault::NoMemory
    }
}

/// The fault of the field with which the bytes begin.
pub(crate) fn placed(fault: FieldFault, bytes: &[u8]) -> Fault
    ensures { result ≡ placed (length bytes.now) fault }
{
    match fault {
        FieldFault::Bad => Fault::Bad { left: bytes.len() },
        FieldFault::NoMemory => Fault::NoMemory,
    }
}
