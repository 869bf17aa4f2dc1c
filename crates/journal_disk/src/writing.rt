//! What is written on the disk of a journal.

ghost use Rattle.std.specs.Prelude.{◌≡◌, ◌≢◌, ◌+◌, ◌<◌, ◌≤◌, ◌^◌, ◌⊎◌, ℕ, List, [], ◌∷◌, ◌++◌, length, OnOk};
ghost use Rattle.std.specs.Option.{ForSome};
ghost use Rattle.acl_model.specs.State.{State};
ghost use Rattle.acl_ports.specs.Faults.{HasCause};
ghost use Rattle.acl_stmt.specs.declared.entry.Entry.{Entry};
ghost use Rattle.journal_bytes.specs.Files.{MayFollow, StandsEitherWay, StandsFor, before_gate, file_size, payload_bytes};
ghost use Rattle.journal_disk.specs.Held.{HasBytesUpTo, Holds, HoldsEither, HoldsList, IsStillTold, Leaves};

use acl_ports::{Disk, Failed};

// The header, and a gate that is not open.
static NO_RECORDS: [u8; 9] = *b"ACLBOOK1\0";

/// Writes the header and the first gate on a disk without bytes, and syncs them.
pub fn write_header<D: Disk>(disk: &mut D) -> Result<(), Failed>
    requires { ForSome (D.content disk.old) (λ held. held ≡ []) }
    ensures done { OnOk result ((start : State) → Holds D.content D.moment D.pending (HoldsList start []) disk.new) }
    ensures long { OnOk result (HasBytesUpTo (D.content disk.new) (file_size [])) }
    ensures cause { HasCause (D.faults disk.old) (D.faults disk.new) result }
{
    disk.write_at(0, &NO_RECORDS)?;
    disk.sync()
}

/// Writes these bytes behind the gate at that place, the last one of a list, and syncs them.
pub fn write_behind<D: Disk>(disk: &mut D, gate: u64, bytes: &[u8]) -> Result<(), Failed>
    requires place { HasBytesUpTo (D.content disk.old) (gate + 1) }
    requires fits { gate + 1 < 2 ^ 64 }

    // Whatever it answers, the disk and each image stand for the list as before.
    ensures kept { (start : State) (entries : List Entry) → gate + 1 ≡ file_size entries
        → Holds D.content D.moment D.pending (HoldsList start entries) disk.old
        → Holds D.content D.moment D.pending (HoldsList start entries) disk.new }
    ensures any_moment { (start : State) (entries : List Entry) → gate + 1 ≡ file_size entries
        → Holds D.content D.moment D.pending (HoldsList start entries) disk.old
        → Leaves D.content D.moment D.pending disk.old disk.new (λ image. StandsFor start image entries) }

    // An entry that may follow then stands behind the gate for good.
    ensures written { OnOk result ((start : State) (entries : List Entry) (entry : Entry) → gate + 1 ≡ file_size entries
        → Holds D.content D.moment D.pending (HoldsList start entries) disk.old
        → MayFollow start entries entry → bytes.now ≡ payload_bytes entry ++ 0 ∷ []
        → Holds D.content D.moment D.pending (HoldsEither start entries entry) disk.new) }
    ensures told { IsStillTold (D.content disk.old) (D.content disk.new) }
    ensures long { (size : ℕ) → HasBytesUpTo (D.content disk.old) size → HasBytesUpTo (D.content disk.new) size }
    ensures longer { OnOk result (HasBytesUpTo (D.content disk.new) (gate + 1 + length bytes.now)) }
    ensures cause { HasCause (D.faults disk.old) (D.faults disk.new) result }
{
    disk.write_at(gate + 1, bytes)?;
    disk.sync()
}

/// Writes the gate at that place, behind which a record stands, and syncs it.
pub fn set_gate<D: Disk>(disk: &mut D, gate: u64, value: u8) -> Result<(), Failed>
    requires { HasBytesUpTo (D.content disk.old) (gate + 1) }

    // Whatever it answers, the disk and each image stand for the list or for the list with the entry.
    ensures kept { (start : State) (entries : List Entry) (entry : Entry) → gate + 1 ≡ file_size entries
        → Holds D.content D.moment D.pending (HoldsEither start entries entry) disk.old
        → Holds D.content D.moment D.pending (HoldsEither start entries entry) disk.new }
    ensures any_moment { (start : State) (entries : List Entry) (entry : Entry) → gate + 1 ≡ file_size entries
        → Holds D.content D.moment D.pending (HoldsEither start entries entry) disk.old
        → Leaves D.content D.moment D.pending disk.old disk.new (λ image. StandsEitherWay start image entries entry) }

    // The gate 1 makes the record count, and any other one closes the list, for good.
    ensures opened { OnOk result ((start : State) (entries : List Entry) (entry : Entry) → gate + 1 ≡ file_size entries
        → Holds D.content D.moment D.pending (HoldsEither start entries entry) disk.old → value ≡ 1
        → Holds D.content D.moment D.pending (HoldsList start (entries ++ entry ∷ [])) disk.new) }
    ensures closed { OnOk result ((start : State) (entries : List Entry) (entry : Entry) → gate + 1 ≡ file_size entries
        → Holds D.content D.moment D.pending (HoldsEither start entries entry) disk.old → value ≢ 1
        → Holds D.content D.moment D.pending (HoldsList start entries) disk.new) }
    ensures told { IsStillTold (D.content disk.old) (D.content disk.new) }
    ensures long { (size : ℕ) → HasBytesUpTo (D.content disk.old) size → HasBytesUpTo (D.content disk.new) size }
    ensures cause { HasCause (D.faults disk.old) (D.faults disk.new) result }
{
    disk.write_at(gate, &[value])?;
    disk.sync()
}
