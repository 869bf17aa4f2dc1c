//! What is read from the disk of a journal.

ghost use Rattle.std.specs.Prelude.{◌≡◌, ◌+◌, ◌<◌, ◌≤◌, ◌^◌, ◌++◌, length, drop, min, IfErr, IfNone, IfOk, IfSome};
ghost use Rattle.acl_ports.specs.Disk.{IsReadAt};
ghost use Rattle.acl_ports.specs.Faults.{HasCause, next_count};
ghost use Rattle.journal_bytes.specs.Files.{most_bytes};
ghost use Rattle.journal_disk.specs.Read.{BeginsAs, BeginsBadly, BeginsClosed, BeginsWith, IsReadFault, IsWithin, OnlyReads};

use acl_ports::{Disk, Failed};
use entry_fields::number_at;
use std::alloc::{AllocError, Global};

/// The most bytes that the file of a journal has, up to and with its last gate: 64 MiB.
pub const MOST_BYTES: u64 = 67_108_864;

// A gate, and the length of a payload.
const FRONT_SIZE: usize = 5;

/// What stands at a gate.
#[derive(Clone, Copy, Debug, PartialEq, Eq)]
pub enum Front {
    /// The gate is not open.
    Closed,
    /// The gate is open, and a payload of so many bytes is said to follow.
    Open { size: u32 },
    /// There is no gate, or an open one without a length.
    Cut,
}

/// Why a record was not read.
#[derive(Clone, Copy, Debug, PartialEq, Eq)]
pub enum ReadFault {
    /// There is no gate, or an open one without a payload that fits.
    Bad,
    /// The disk failed.
    Disk,
    NoMemory,
}

impl From<AllocError> for ReadFault {
    ghost use Rattle.journal_disk.specs.declared.reading.ReadFault.TheVariants.{NoMemory};

    ghost from_gives = { λ _ fault. fault ≡ NoMemory };

    fn from(_error: AllocError) -> ReadFault {
        ReadFault::NoMemory
    }
}

impl From<Failed> for ReadFault {
    ghost use Rattle.journal_disk.specs.declared.reading.ReadFault.TheVariants.{Disk};

    ghost from_gives = { λ _ fault. fault ≡ Disk };

    fn from(_failed: Failed) -> ReadFault {
        ReadFault::Disk
    }
}

/// Reads from that place on until `into` is full or the disk has no more bytes, and answers how many it read.
pub fn fill<D: Disk>(disk: &mut D, at: u64, into: &mut [u8]) -> Result<usize, Failed>
    requires { at + length into.old < 2 ^ 64 }
    ensures within { IfOk result (λ count. count ≤ length into.new) }
    ensures given { IfSome (D.content disk.old) (λ held. IfOk result (IsReadAt held at into.new)) }
    ensures whole { IfSome (D.content disk.old) (λ held.
        IfOk result (λ count. count ≡ min (length into.old) (length (drop at held)))) }
    ensures quiet { OnlyReads D.content D.moment D.pending disk.old disk.new }
    ensures cause { HasCause (D.faults disk.old) (D.faults disk.new) result }
{
    let mut done = 0;
    while done < into.len() {
        let next = read_behind(disk, at, into, done)?;
        if next == done {
            return Ok(done);
        }
        done = next;
    }
    Ok(done)
}

// Reads more bytes behind those that were read, and answers how many there are then.
fn read_behind<D: Disk>(
    disk: &mut D,
    at: u64,
    into: &mut [u8],
    done: usize,
) -> Result<usize, Failed>
    requires done { done < length into.old }
    requires fits { at + length into.old < 2 ^ 64 }
    ensures later { IfOk result (λ count. done ≤ count) }
    ensures within { IfOk result (λ count. count ≤ length into.new) }
    ensures given { IfSome (D.content disk.old) (λ held. IsReadAt held at into.old done
        → IfOk result (IsReadAt held at into.new)) }
    ensures end { IfSome (D.content disk.old) (λ held.
        IfOk result (λ count. count ≡ done → length (drop at held) ≤ done)) }
    ensures quiet { OnlyReads D.content D.moment D.pending disk.old disk.new }
    ensures cause { HasCause (D.faults disk.old) (D.faults disk.new) result }
{
    let count = disk.read(at + done as u64, &mut into[done..])?;
    Ok(done + count)
}

/// What stands at that place.
pub fn front_at<D: Disk>(disk: &mut D, at: u64) -> Result<Front, Failed>
    requires { at < 2 ^ 63 }
    ensures front { IfSome (D.content disk.old) (λ held. IfOk result (BeginsAs (drop at held))) }
    ensures quiet { OnlyReads D.content D.moment D.pending disk.old disk.new }
    ensures cause { HasCause (D.faults disk.old) (D.faults disk.new) result }
{
    let mut front = [0; FRONT_SIZE];
    let count = fill(disk, at, &mut front)?;
    Ok(front_of(&front[..count]))
}

fn front_of(bytes: &[u8]) -> Front
    ensures { BeginsAs bytes.now result }
{
    match bytes {
        [] => Front::Cut,
        [1, rest @ ..] => match number_at(rest) {
            Some((size, _)) => Front::Open { size },
            None => Front::Cut,
        },
        _ => Front::Closed,
    }
}

// So many bytes from that place on, or None where there are fewer.
fn payload_at<D: Disk>(
    alloc: Global,
    disk: &mut D,
    at: u64,
    size: u32,
) -> Result<Option<Vec<u8>>, ReadFault>
    requires { at < 2 ^ 63 }
    ensures found { IfSome (D.content disk.old) (λ held. IfOk result (λ found. IfSome found (λ payload.
        drop at held ≡ payload.items ++ drop size (drop at held)))) }
    ensures long { IfOk result (λ found. IfSome found (λ payload. length payload.items ≡ size)) }
    ensures none { IfSome (D.content disk.old) (λ held. IfOk result (λ found. IfNone found (length (drop at held) < size))) }
    ensures err { IfErr result (IsReadFault ⊥) }
    ensures failed { IfErr result (λ fault. fault ≡ ReadFault.Disk → next_count (D.faults disk.old) ≤ D.faults disk.new) }
    ensures faults { D.faults disk.old ≤ D.faults disk.new }
    ensures quiet { OnlyReads D.content D.moment D.pending disk.old disk.new }
{
    let mut payload = vec![in alloc; 0; size as usize]?;
    let count = fill(disk, at, payload.as_mut_slice())?;
    if count < size as usize {
        return Ok(None);
    }
    Ok(Some(payload))
}

// The payload of so many bytes behind an open gate at that place.
fn payload_behind<D: Disk>(
    alloc: Global,
    disk: &mut D,
    total: u64,
    at: u64,
    size: u32,
) -> Result<Vec<u8>, ReadFault>
    requires { at ≤ most_bytes }
    ensures found { IfSome (D.content disk.old) (λ held. BeginsAs (drop at held) (Front.Open size)
        → IfOk result (λ payload. BeginsWith (drop at held) at payload.items)) }
    ensures within { IfOk result (λ payload. IsWithin at payload.items) }
    ensures bad { IfSome (D.content disk.old) (λ held. total ≡ length held → BeginsAs (drop at held) (Front.Open size)
        → IfErr result (IsReadFault (BeginsBadly (drop at held) at))) }
    ensures failed { IfErr result (λ fault. fault ≡ ReadFault.Disk → next_count (D.faults disk.old) ≤ D.faults disk.new) }
    ensures faults { D.faults disk.old ≤ D.faults disk.new }
    ensures quiet { OnlyReads D.content D.moment D.pending disk.old disk.new }
{
    let end = at + 5 + size as u64;
    // The length is not believed: no more memory is taken than the file has bytes.
    if end > total || end >= MOST_BYTES {
        return Err(ReadFault::Bad);
    }
    match payload_at(alloc, disk, at + 5, size) {
        Ok(Some(payload)) => Ok(payload),
        Ok(None) => Err(ReadFault::Bad),
        Err(fault) => Err(fault),
    }
}

/// The payload of the record at that place, or None where a gate stands there that is not open. The file has so many bytes
/// in all.
pub fn record_at<D: Disk>(
    alloc: Global,
    disk: &mut D,
    total: u64,
    at: u64,
) -> Result<Option<Vec<u8>>, ReadFault>
    requires { at ≤ most_bytes }
    ensures found { IfSome (D.content disk.old) (λ held. IfOk result (λ found. IfSome found (λ payload.
        BeginsWith (drop at held) at payload.items))) }
    ensures end { IfSome (D.content disk.old) (λ held. IfOk result (λ found. IfNone found (BeginsClosed (drop at held)))) }
    ensures within { IfOk result (λ found. IfSome found (λ payload. IsWithin at payload.items)) }
    ensures bad { IfSome (D.content disk.old) (λ held. total ≡ length held
        → IfErr result (IsReadFault (BeginsBadly (drop at held) at))) }
    ensures failed { IfErr result (λ fault. fault ≡ ReadFault.Disk → next_count (D.faults disk.old) ≤ D.faults disk.new) }
    ensures faults { D.faults disk.old ≤ D.faults disk.new }
    ensures quiet { OnlyReads D.content D.moment D.pending disk.old disk.new }
{
    match front_at(disk, at) {
        Ok(Front::Closed) => Ok(None),
        Ok(Front::Cut) => Err(ReadFault::Bad),
        Ok(Front::Open { size }) => Ok(Some(payload_behind(alloc, disk, total, at, size)?)),
        Err(_) => Err(ReadFault::Disk),
    }
}
