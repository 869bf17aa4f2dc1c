//! The entries of a journal, read from its disk.

ghost use Rattle.std.specs.Prelude.{◌≡◌, ◌⊎◌, ◌↔◌, ◌+◌, ◌<◌, ◌≤◌, ◌^◌, [], false, true, length, drop, take, IfErr, IfNone, IfOk, IfSome, IsTrue, None, OnOk, Some};
ghost use Rattle.acl_model.specs.Effects.{state_after};
ghost use Rattle.acl_ports.specs.Crash.{IsImage, LeavesOnly, all_synced};
ghost use Rattle.acl_ports.specs.Faults.{next_count};
ghost use Rattle.acl_journal.specs.Recovery.{GoesOn, HasNoRecord, IsOpenOrNone, NoneIsAccepted, TakesEntry};
ghost use Rattle.acl_journal.specs.Refusals.{IsForeignRefusal, IsOpenRefusal, IsRefusedAs};
ghost use Rattle.entry_bytes.specs.Spelling.{HasBytes, bytes_of};
ghost use Rattle.journal_bytes.specs.Damage.{IsDamagedAt};
ghost use Rattle.journal_bytes.specs.Files.{StandsFor, file_size, header, most_bytes};
ghost use Rattle.journal_disk.specs.Read.{BeginsClosed, OnlyReads};

use crate::refusal::refusal_at;
use crate::{OpenRefusal, Replay};
use acl_items::Items;
use acl_ports::Disk;
use acl_stmt::Entry;
use entry_reading::{DecodeRefusal, decode};
use journal_disk::{Front, fill, front_at, record_at};
use std::alloc::{AllocError, Global};

static HEADER: [u8; 8] = *b"ACLBOOK1";

// A header and a gate.
const LEAST_BYTES: u64 = 9;

const FIRST_GATE: u64 = 8;

// The most entries of a journal.
const MOST_ENTRIES: usize = 65_536;

// The entry whose bytes these are, or None where they are no entry's.
fn entry_of(alloc: Global, payload: &[u8]) -> Result<Option<Entry>, AllocError>
    requires { length payload.now < 2 ^ 32 }
    ensures bytes { IfOk result (λ found. IfSome found (λ entry. payload.now ≡ bytes_of entry)) }
    ensures written { IfOk result (λ found. IfSome found HasBytes) }
    ensures none { IfOk result (λ found. IfNone found ((entry : Entry) → HasBytes entry → payload.now ≡ bytes_of entry → ⊥)) }
{
    match decode(alloc, payload) {
        Ok(entry) => Ok(Some(entry)),
        Err(DecodeRefusal::BadEntry { .. }) => Ok(None),
        Err(DecodeRefusal::NoMemory) => Err(AllocError),
    }
}

// Carries out an entry and puts it behind the others, if it is accepted.
fn keep_entry<R: Replay>(
    alloc: Global,
    entry: Entry,
    replay: &mut R,
    entries: &mut Items<Entry>,
) -> Result<bool, AllocError>
    requires { HasBytes entry }
    ensures taken { IfOk result (λ is_taken. is_taken ≡ true
        → TakesEntry (bytes_of entry) (R.state replay.old) (R.state replay.new) entries.old entries.new) }
    ensures bad { IfOk result (λ is_taken. is_taken ≡ false → NoneIsAccepted (bytes_of entry) (R.state replay.old)) }
{
    let is_accepted = replay.replay(alloc, &entry)?;
    if is_accepted {
        entries.push(entry)?;
    }
    Ok(is_accepted)
}

// Carries out the entry with these bytes, and puts it behind the others.
fn take_entry<R: Replay>(
    alloc: Global,
    payload: &[u8],
    replay: &mut R,
    entries: &mut Items<Entry>,
) -> Result<bool, AllocError>
    requires { length payload.now < 2 ^ 32 }
    ensures taken { IfOk result (λ is_taken. is_taken ≡ true
        → TakesEntry payload.now (R.state replay.old) (R.state replay.new) entries.old entries.new) }
    ensures bad { IfOk result (λ is_taken. is_taken ≡ false → NoneIsAccepted payload.now (R.state replay.old)) }
{
    match entry_of(alloc, payload) {
        Ok(Some(entry)) => keep_entry(alloc, entry, replay, entries),
        Ok(None) => Ok(false),
        Err(error) => Err(error),
    }
}

// Reads the next entry from its record at that gate, and answers where the next gate is; None where the gate is not open.
fn next_entry<D: Disk, R: Replay>(
    alloc: Global,
    disk: &mut D,
    replay: &mut R,
    total: u64,
    gate: u64,
    entries: &mut Items<Entry>,
) -> Result<Option<u64>, OpenRefusal>
    requires { gate ≤ most_bytes }
    ensures next { IfOk result (λ found. IfSome found (λ next.
        GoesOn (D.content disk.old) gate next (R.state replay.old) (R.state replay.new) entries.old entries.new)) }
    ensures end { IfSome (D.content disk.old) (λ held. IfOk result (λ found. IfNone found (BeginsClosed (drop gate held)))) }
    ensures end_list { IfOk result (λ found. IfNone found (entries.new ≡ entries.old)) }
    ensures end_state { IfOk result (λ found. IfNone found (R.state replay.new ≡ R.state replay.old)) }
    ensures err { IfSome (D.content disk.old) (λ held. total ≡ length held → IfErr result (IsRefusedAs (λ offset.
        (offset ≡ gate) × HasNoRecord (drop gate held) gate (R.state replay.old)))) }
    ensures failed { IfErr result (λ refusal. refusal ≡ OpenRefusal.DiskFault
        → next_count (D.faults disk.old) ≤ D.faults disk.new) }
    ensures faults { D.faults disk.old ≤ D.faults disk.new }
    ensures quiet { OnlyReads D.content D.moment D.pending disk.old disk.new }
{
    match record_at(alloc, disk, total, gate) {
        Ok(Some(payload)) => {
            if take_entry(alloc, payload.as_slice(), replay, entries)? {
                Ok(Some(gate + 5 + payload.len() as u64))
            } else {
                Err(OpenRefusal::Damaged { offset: gate })
            }
        }
        Ok(None) => Ok(None),
        Err(fault) => Err(refusal_at(fault, gate)),
    }
}

// Nothing but a gate that is not open may stand there.
fn end_at<D: Disk>(disk: &mut D, gate: u64) -> Result<(), OpenRefusal>
    requires { gate ≤ most_bytes }
    ensures end { IfSome (D.content disk.old) (λ held. OnOk result (BeginsClosed (drop gate held))) }
    ensures err { IfSome (D.content disk.old) (λ held. IfErr result (IsRefusedAs (λ offset.
        (offset ≡ gate) × IsOpenOrNone (drop gate held)))) }
    ensures failed { IfErr result (λ refusal. refusal ≡ OpenRefusal.DiskFault
        → next_count (D.faults disk.old) ≤ D.faults disk.new) }
    ensures faults { D.faults disk.old ≤ D.faults disk.new }
    ensures quiet { OnlyReads D.content D.moment D.pending disk.old disk.new }
{
    match front_at(disk, gate) {
        Ok(Front::Closed) => Ok(()),
        Ok(_) => Err(OpenRefusal::Damaged { offset: gate }),
        Err(failed) => Err(OpenRefusal::from(failed)),
    }
}

// Reads the entries behind the header, and answers where the last gate is.
fn read_entries<D: Disk, R: Replay>(
    alloc: Global,
    disk: &mut D,
    replay: &mut R,
    total: u64,
    entries: &mut Items<Entry>,
) -> Result<u64, OpenRefusal>
    requires { entries.old ≡ [] }
    ensures list { IfSome (D.content disk.old) (λ held. take 8 held ≡ header
        → OnOk result (StandsFor (R.state replay.old) held entries.new)) }
    ensures gate { IfOk result (λ gate. gate + 1 ≡ file_size entries.new) }
    ensures small { OnOk result (file_size entries.new ≤ most_bytes) }
    ensures state { OnOk result (R.state replay.new ≡ state_after entries.new (R.state replay.old)) }
    ensures err { IfSome (D.content disk.old) (λ held. take 8 held ≡ header → 9 ≤ length held → total ≡ length held
        → IfErr result (IsRefusedAs (IsDamagedAt (R.state replay.old) held))) }
    ensures failed { IfErr result (λ refusal. refusal ≡ OpenRefusal.DiskFault
        → next_count (D.faults disk.old) ≤ D.faults disk.new) }
    ensures faults { D.faults disk.old ≤ D.faults disk.new }
    ensures quiet { OnlyReads D.content D.moment D.pending disk.old disk.new }
{
    let mut gate = FIRST_GATE;
    'records: while entries.len() < MOST_ENTRIES {
        match next_entry(alloc, disk, replay, total, gate, entries) {
            Ok(Some(next)) => gate = next,
            Ok(None) => return Ok(gate),
            Err(refusal) => return Err(refusal),
        }
    }
    match end_at(disk, gate) {
        Ok(()) => Ok(gate),
        Err(refusal) => Err(refusal),
    }
}

#[tactic(auto, unfolding(journal_bytes::specs::Files::header))]
fn is_header(bytes: &[u8]) -> bool
    ensures { IsTrue result ↔ (bytes.now ≡ header) }
{
    bytes == HEADER.as_slice()
}

// The file begins with the header, and has room for a gate behind it.
fn check_header<D: Disk>(disk: &mut D, total: u64) -> Result<(), OpenRefusal>
    ensures header { IfSome (D.content disk.old) (λ held. OnOk result (take 8 held ≡ header)) }
    ensures long { OnOk result (9 ≤ total) }
    ensures err { IfSome (D.content disk.old) (λ held. total ≡ length held → IfErr result (IsForeignRefusal held)) }
    ensures failed { IfErr result (λ refusal. refusal ≡ OpenRefusal.DiskFault
        → next_count (D.faults disk.old) ≤ D.faults disk.new) }
    ensures faults { D.faults disk.old ≤ D.faults disk.new }
    ensures quiet { OnlyReads D.content D.moment D.pending disk.old disk.new }
{
    if total < LEAST_BYTES {
        return Err(OpenRefusal::NotJournal);
    }
    let mut front = [0; 8];
    let count = fill(disk, 0, &mut front)?;
    if !is_header(&front[..count]) {
        return Err(OpenRefusal::NotJournal);
    }
    Ok(())
}

// Reads the journal from a disk on which nothing is in doubt, and answers where the last gate is.
fn read_journal<D: Disk, R: Replay>(
    alloc: Global,
    disk: &mut D,
    replay: &mut R,
    entries: &mut Items<Entry>,
) -> Result<u64, OpenRefusal>
    requires { entries.old ≡ [] }
    ensures list { IfSome (D.content disk.old) (λ held. OnOk result (StandsFor (R.state replay.old) held entries.new)) }
    ensures gate { IfOk result (λ gate. gate + 1 ≡ file_size entries.new) }
    ensures small { OnOk result (file_size entries.new ≤ most_bytes) }
    ensures state { OnOk result (R.state replay.new ≡ state_after entries.new (R.state replay.old)) }
    ensures err { IfSome (D.content disk.old) (λ held. IfErr result (IsOpenRefusal (R.state replay.old) held)) }
    ensures failed { IfErr result (λ refusal. refusal ≡ OpenRefusal.DiskFault
        → next_count (D.faults disk.old) ≤ D.faults disk.new) }
    ensures faults { D.faults disk.old ≤ D.faults disk.new }
    ensures quiet { OnlyReads D.content D.moment D.pending disk.old disk.new }
{
    let total = disk.length()?;
    check_header(disk, total)?;
    read_entries(alloc, disk, replay, total, entries)
}

/// Syncs the disk, reads the entries of its journal into an empty list, and answers where the last gate is.
pub(crate) fn recover<D: Disk, R: Replay>(
    alloc: Global,
    disk: &mut D,
    replay: &mut R,
    entries: &mut Items<Entry>,
) -> Result<u64, OpenRefusal>
    requires { entries.old ≡ [] }
    ensures list { IfSome (D.content disk.old) (λ held. OnOk result (StandsFor (R.state replay.old) held entries.new)) }
    ensures synced { IfSome (D.content disk.old) (λ held. OnOk result (
        (D.content disk.new ≡ Some held) × (D.pending disk.new (D.moment disk.new) ≡ all_synced (Some held)))) }
    ensures untold { IfNone (D.content disk.old) (D.content disk.new ≡ None) }
    ensures gate { IfOk result (λ gate. gate + 1 ≡ file_size entries.new) }
    ensures small { OnOk result (file_size entries.new ≤ most_bytes) }
    ensures state { OnOk result (R.state replay.new ≡ state_after entries.new (R.state replay.old)) }
    ensures err { IfSome (D.content disk.old) (λ held. IfErr result (IsOpenRefusal (R.state replay.old) held)) }
    ensures failed { IfErr result (λ refusal. refusal ≡ OpenRefusal.DiskFault
        → next_count (D.faults disk.old) ≤ D.faults disk.new) }
    ensures faults { D.faults disk.old ≤ D.faults disk.new }
    ensures kept { IfSome (D.content disk.old) (λ held. IfErr result (λ refusal. (refusal ≡ OpenRefusal.DiskFault)
        ⊎ (D.content disk.new ≡ Some held))) }
    ensures any_moment { IfSome (D.content disk.old) (λ held. LeavesOnly D.moment D.pending disk.old disk.new (λ image.
        IsImage (D.pending disk.old (D.moment disk.old)) image ⊎ (image ≡ held))) }
{
    disk.sync()?;
    read_journal(alloc, disk, replay, entries)
}
