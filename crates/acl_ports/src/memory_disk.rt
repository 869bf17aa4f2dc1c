// A disk over bytes in memory.
ghost use Rattle.std.specs.Prelude.{◌≡◌, ◌↔◌, ◌⊎◌, ◌+◌, ◌<◌, ◌≤◌, ◌++◌, [], ◌∷◌, length, take, drop, min, reverse, vec_capacity, Some, IfOk, OnOk, OnErr, IsErr, false};
ghost use Rattle.acl_ports.specs.Calls.{count_of, no_calls};
ghost use Rattle.acl_ports.specs.Crash.{BecomesDirty, BecomesSynced, Elapses, IsTorn, StaysPending};
ghost use Rattle.acl_ports.specs.Disk.{content_after_write};
ghost use Rattle.acl_ports.specs.DiskLog.{CanBeUndone, CanReturn, content_before, content_synced, replaced_before};
ghost use Rattle.acl_ports.specs.Faults.{HasCause};
ghost use Rattle.acl_ports.specs.MemoryDisk.{FailsNextCall, IsTooLarge, after_disk_call, after_sync, after_write, kept_bytes, pending_at, replaced_bytes};

use crate::disk_log::{Call, DiskLog};
use crate::{Disk, Failed, Keep};
use std::alloc::{AllocError, Global};
use std::marker::Model;

/// A disk over bytes in memory, whose writes are done at once. It records its calls, and keeps the bytes that its
/// writes replace, so that it can be stopped as a crash would leave it. A call fails where its number is in a list, and
/// where as many calls are recorded as there is room for. A write fails too where the disk would hold more than `room`
/// bytes, or would have replaced more than `room` in all.
#[derive(Drop)]
pub struct MemoryDisk {
    bytes: Vec<u8>,
    replaced: Vec<u8>,
    room: usize,
    log: DiskLog,
}

impl Model for MemoryDisk {
    ghost use Rattle.std.specs.Prelude.{◌<◌, ◌≤◌, ◌^◌, length, vec_capacity};
    ghost use Rattle.acl_ports.specs.DiskLog.{CanReturn, pending_after, pending_before};
    ghost use Rattle.acl_ports.specs.MemoryDisk.{DiskState};

    ghost Value = { DiskState };

    ghost view = { λ disk. record {
      content = disk.bytes.items;
      pending = pending_after disk.log.log disk.replaced.items disk.bytes.items;
      past = pending_before disk.log.log disk.replaced.items disk.bytes.items;
      replaced = length disk.replaced.items;
      room = disk.room;
      most_calls = disk.log.most;
      calls = disk.log.calls;
    } };

    ghost invariant = { λ disk. (length disk.bytes.items ≤ disk.room)
        × (length disk.replaced.items ≤ disk.room)
        × (disk.room ≤ vec_capacity disk.bytes)
        × (disk.room ≤ vec_capacity disk.replaced)
        × (disk.log.most < 2 ^ 64)
        × (disk.log.calls.made < 2 ^ 64)
        × CanReturn disk.log.log disk.replaced.items disk.bytes.items };
}

impl MemoryDisk {
    /// A disk of these bytes, all of them synced, with all the memory that it can need. `calls` is how many calls it
    /// records at most, and `failing` has the numbers of the calls that fail, counted from 0.
    pub fn new(
        alloc: Global,
        bytes: Vec<u8>,
        room: usize,
        calls: usize,
        failing: Vec<u64>,
    ) -> Result<MemoryDisk, AllocError>
        requires { length bytes.items ≤ room }
        ensures { IfOk result (λ disk. disk ≡ record {
          content = bytes.items;
          pending = record { synced = bytes.items; dirty = [] };
          past = [];
          replaced = 0;
          room = room;
          most_calls = calls;
          calls = no_calls failing.items;
        }) }
    {
        let mut held = Vec::with_capacity(alloc, room)?;
        held.extend_from_slice(&bytes)?;
        Ok(MemoryDisk {
            bytes: held,
            replaced: Vec::with_capacity(alloc, room)?,
            room,
            log: DiskLog::new(alloc, calls, failing)?,
        })
    }

    /// The bytes that a read gives.
    pub fn bytes(&self) -> &[u8]
        ensures { result.now ≡ self.now.content }
    {
        &self.bytes
    }

    /// How many calls have failed. It stays at its last value.
    pub fn faults(&self) -> u64
        ensures { result ≡ self.now.calls.faults }
    {
        self.log.faults()
    }

    /// The bytes that are left where the disk is stopped now, in the memory that it had.
    pub fn stopped(self, keep: Keep) -> Vec<u8>
        ensures kept { result.items ≡ kept_bytes keep self }
        ensures image { IsTorn self.pending.dirty self.pending.synced result.items }
    {
        match keep {
            Keep::Synced => undo_to_sync(self.log.into_recorded(), self.replaced, self.bytes),
            Keep::Written => self.bytes,
        }
    }
}

// Whether a disk of these bytes, which has replaced so many, has room for a write.
fn fits(at: usize, next: &[u8], bytes: &[u8], replaced: usize, room: usize) -> bool
    requires place { at ≤ length bytes.now }
    requires within { (length bytes.now ≤ room) × (replaced ≤ room) }
    ensures { (result ≡ false) ↔ ((room < length (content_after_write bytes.now at next.now))
        ⊎ (room < replaced + length (replaced_bytes bytes.now at (length next.now)))) }
{
    let over = next.len().min(bytes.len() - at);
    next.len() <= room - at && over <= room - replaced
}

// Writes over the bytes at a place and past the end, and keeps those that it replaces.
fn overwrite(at: usize, next: &[u8], replaced: &mut Vec<u8>, bytes: &mut Vec<u8>)
    requires place { at ≤ length bytes.old.items }
    requires room { length (content_after_write bytes.old.items at next.now) ≤ vec_capacity bytes.old }
    requires spare { length replaced.old.items + length (replaced_bytes bytes.old.items at (length next.now))
        ≤ vec_capacity replaced.old }
    ensures replaced { replaced.new.items
        ≡ replaced.old.items ++ replaced_bytes bytes.old.items at (length next.now) }
    ensures bytes { bytes.new.items ≡ content_after_write bytes.old.items at next.now }
    ensures memory { vec_capacity replaced.old ≤ vec_capacity replaced.new }
    ensures memory_of_bytes { vec_capacity bytes.old ≤ vec_capacity bytes.new }
{
    let over = next.len().min(bytes.len() - at);
    replaced.extend_from_slice(&bytes[at..at + over]).unwrap();
    bytes[at..at + over].copy_from_slice(&next[..over]);
    bytes.extend_from_slice(&next[over..]).unwrap();
}

// Undoes the writes since the last sync, the last first.
fn undo_to_sync(recorded: Vec<Call>, replaced: Vec<u8>, bytes: Vec<u8>) -> Vec<u8>
    requires { CanReturn (reverse recorded.items) replaced.items bytes.items }
    ensures { result.items ≡ content_synced (reverse recorded.items) replaced.items bytes.items }
{
    let mut recorded = recorded;
    let mut replaced = replaced;
    let mut bytes = bytes;
    while let Some(call) = recorded.pop() {
        match call {
            Call::Synced => return bytes,
            Call::Written { at, count, over } => undo(at, count, over, &mut replaced, &mut bytes),
            Call::Passed | Call::Broken { .. } => {}
        }
    }
    bytes
}

// Puts the bytes back that a write replaced, and cuts off those that it added.
fn undo(at: usize, count: usize, over: usize, replaced: &mut Vec<u8>, bytes: &mut Vec<u8>)
    requires { CanBeUndone at count over replaced.old.items bytes.old.items }
    ensures replaced { replaced.new.items ≡ replaced_before over replaced.old.items }
    ensures bytes { bytes.new.items ≡ content_before at count over replaced.old.items bytes.old.items }
{
    let start = replaced.len() - over;
    if over < count {
        bytes.truncate(at + over);
    }
    bytes[at..at + over].copy_from_slice(&replaced[start..]);
    replaced.truncate(start);
}

impl Disk for MemoryDisk {
    ghost content = { λ disk. Some disk.content };

    ghost moment = { λ disk. disk.calls.made };

    ghost pending = { pending_at };

    ghost faults = { λ disk. disk.calls.faults };

    fn length(&mut self) -> Result<u64, Failed>
        ensures fails { IsErr result ↔ FailsNextCall self.old }
        ensures cause { HasCause self.old.calls.faults self.new.calls.faults result }
        ensures length { IfOk result (λ count. count ≡ length self.old.content) }
        ensures after { self.new ≡ after_disk_call self.old self.old.pending result }
        ensures time { Elapses self.old.calls.made self.new.calls.made (pending_at self.old)
            (pending_at self.new) StaysPending }
    {
        self.log.answer(true, Call::Passed, Call::Passed)?;
        Ok(self.bytes.len() as u64)
    }

    fn read(&mut self, at: u64, into: &mut [u8]) -> Result<usize, Failed>
        ensures fails { IsErr result ↔ FailsNextCall self.old }
        ensures cause { HasCause self.old.calls.faults self.new.calls.faults result }
        ensures moved { IfOk result (λ count.
            count ≡ min (length into.old) (length (drop at self.old.content))) }
        ensures given { let count = count_of result in
            into.new ≡ take count (drop at self.old.content) ++ drop count into.old }
        ensures after { self.new ≡ after_disk_call self.old self.old.pending result }
        ensures time { Elapses self.old.calls.made self.new.calls.made (pending_at self.old)
            (pending_at self.new) StaysPending }
    {
        self.log.answer(true, Call::Passed, Call::Passed)?;
        let start = (at as usize).min(self.bytes.len());
        let count = into.len().min(self.bytes.len() - start);
        into[..count].copy_from_slice(&self.bytes[start..start + count]);
        Ok(count)
    }

    fn write_at(&mut self, at: u64, bytes: &[u8]) -> Result<(), Failed>
        requires { at ≤ length self.old.content }
        ensures fails { IsErr result ↔ (FailsNextCall self.old ⊎ IsTooLarge self.old at bytes.now) }
        ensures cause { HasCause self.old.calls.faults self.new.calls.faults result }
        ensures done { OnOk result (self.new ≡ record
            (after_disk_call self.old (after_write at (length bytes.now) self.old.pending) result) {
              content = content_after_write self.old.content at bytes.now;
              replaced = self.old.replaced + length (replaced_bytes self.old.content at (length bytes.now));
            }) }
        ensures kept { OnErr result (self.new
            ≡ after_disk_call self.old (after_write at (length bytes.now) self.old.pending) result) }
        ensures time { Elapses self.old.calls.made self.new.calls.made (pending_at self.old)
            (pending_at self.new) (BecomesDirty at (length bytes.now) result) }
    {
        let start = at as usize;
        let count = bytes.len();
        let over = count.min(self.bytes.len() - start);
        let has_room = fits(start, bytes, &self.bytes, self.replaced.len(), self.room);
        let done = Call::Written {
            at: start,
            count,
            over,
        };
        self.log
            .answer(has_room, done, Call::Broken { at: start, count })?;
        overwrite(start, bytes, &mut self.replaced, &mut self.bytes);
        Ok(())
    }

    fn sync(&mut self) -> Result<(), Failed>
        ensures fails { IsErr result ↔ FailsNextCall self.old }
        ensures cause { HasCause self.old.calls.faults self.new.calls.faults result }
        ensures after { self.new ≡ after_disk_call self.old (after_sync self.old result) result }
        ensures time { Elapses self.old.calls.made self.new.calls.made (pending_at self.old)
            (pending_at self.new) (BecomesSynced (Some self.old.content) result) }
    {
        self.log.answer(true, Call::Synced, Call::Passed)
    }
}
