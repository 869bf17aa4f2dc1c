//! An entry, from its bytes.

ghost use Rattle.std.specs.Prelude.{◌≡◌, ◌<◌, ◌^◌, ℕ, IfErr, IfOk, length};
ghost use Rattle.acl_stmt.specs.declared.entry.Entry.{Entry};
ghost use Rattle.entry_bytes.specs.Faults.{EntryFields, IsBadAt};
ghost use Rattle.entry_bytes.specs.Spelling.{HasBytes, bytes_of};
ghost use Rattle.entry_reading.specs.Decoding.{DecodesAs, IsDecodeRefusal, RefusesAt};
ghost use Rattle.entry_reading.specs.Faults.{IsFault};

use crate::fault::Fault;
use crate::front::front_at;
use crate::limits::limits_at;
use crate::statement::statement_field;
use acl_stmt::Entry;
use std::alloc::Global;
use thiserror::Error;

/// Why bytes were not read as an entry.
#[derive(Clone, Copy, Debug, PartialEq, Eq, Error)]
pub enum DecodeRefusal {
    /// The first field that is cut short or out of its rules, or the first byte too many, is so many bytes from the
    /// start.
    #[error("the bytes are no entry from {offset} on")]
    BadEntry { offset: u32 },
    /// Memory ran out; nothing is said of the bytes.
    #[error("out of memory")]
    NoMemory,
}

/// The entry whose bytes these are.
pub fn decode(alloc: Global, bytes: &[u8]) -> Result<Entry, DecodeRefusal>
    requires { length bytes.now < 2 ^ 32 }

    // The bytes are those of the entry, which keeps what it is read back for; those of an entry are read as no other.
    ensures ok { IfOk result (λ entry. bytes.now ≡ bytes_of entry) }
    ensures kept { IfOk result HasBytes }
    ensures only { (entry : Entry) → HasBytes entry → bytes.now ≡ bytes_of entry → DecodesAs result entry }

    // The first fault of the bytes is there, and at no other offset.
    ensures err { IfErr result (IsDecodeRefusal bytes.now) }
    ensures exact { (offset : ℕ) → IsBadAt bytes.now offset → RefusesAt result offset }
{
    read_entry(alloc, bytes)
}

fn read_entry(alloc: Global, bytes: &[u8]) -> Result<Entry, DecodeRefusal>
    requires { length bytes.now < 2 ^ 32 }
    ensures ok { IfOk result (λ entry. bytes.now ≡ bytes_of entry) }
    ensures kept { IfOk result HasBytes }
    ensures err { IfErr result (IsDecodeRefusal bytes.now) }
{
    match entry_in(alloc, bytes) {
        Ok(entry) => Ok(entry),
        Err(Fault::Bad { left }) => {
            let offset = (bytes.len() - left) as u32;
            Err(DecodeRefusal::BadEntry { offset })
        }
        Err(Fault::NoMemory) => Err(DecodeRefusal::NoMemory),
    }
}

fn entry_in(alloc: Global, bytes: &[u8]) -> Result<Entry, Fault>
    ensures ok { IfOk result (λ entry. bytes.now ≡ bytes_of entry) }
    ensures kept { IfOk result HasBytes }
    ensures err { IfErr result (IsFault (EntryFields bytes.now)) }
{
    let (front, behind_front) = front_at(alloc, bytes)?;
    let (limits, behind_limits) = limits_at(alloc, front.count, behind_front)?;
    let (statement, rest) = statement_field(alloc, limits.as_slice(), behind_limits)?;
    if !rest.is_empty() {
        return Err(Fault::Bad { left: rest.len() });
    }
    Ok(Entry {
        caller: front.caller,
        number: front.number,
        by: front.by,
        limits,
        statement,
    })
}
