// A source over bytes in memory.
ghost use Rattle.std.specs.Prelude.{◌≡◌, ◌↔◌, ◌<◌, ◌≤◌, [], ◌++◌, length, take, drop, min, Some, IfOk, IsErr};
ghost use Rattle.acl_ports.specs.Calls.{IsListed, after_call, count_of, no_calls};
ghost use Rattle.acl_ports.specs.Faults.{HasCause};

use crate::calls::CallLog;
use crate::{Failed, Source};
use std::marker::Model;

/// A source over bytes in memory. A read gives at most `piece` bytes, and fails where its number is in a list.
#[derive(Drop)]
pub struct MemorySource {
    bytes: Vec<u8>,
    start: usize,
    piece: usize,
    calls: CallLog,
}

impl Model for MemorySource {
    ghost use Rattle.std.specs.Prelude.{◌≤◌, length, drop};
    ghost use Rattle.acl_ports.specs.MemorySource.{SourceState};

    ghost Value = { SourceState };

    ghost view = { λ source. record {
      left = drop source.start source.bytes.items;
      piece = source.piece;
      calls = source.calls;
    } };

    ghost invariant = { λ source. (source.start ≤ length source.bytes.items) × (1 ≤ source.piece) };
}

impl MemorySource {
    /// A source of these bytes. `failing` has the numbers of the reads that fail, counted from 0.
    pub fn new(bytes: Vec<u8>, piece: usize, failing: Vec<u64>) -> MemorySource
        requires { 1 ≤ piece }
        ensures { result ≡ record {
          left = bytes.items;
          piece = piece;
          calls = no_calls failing.items;
        } }
    {
        MemorySource {
            bytes,
            start: 0,
            piece,
            calls: CallLog::new(failing),
        }
    }

    /// How many reads have failed. It stays at its last value.
    pub fn faults(&self) -> u64
        ensures { result ≡ self.now.calls.faults }
    {
        self.calls.faults()
    }
}

impl Source for MemorySource {
    ghost left = { λ source. Some source.left };

    ghost faults = { λ source. source.calls.faults };

    fn read(&mut self, into: &mut [u8]) -> Result<usize, Failed>
        ensures fails { IsErr result ↔ IsListed self.old.calls }
        ensures cause { HasCause self.old.calls.faults self.new.calls.faults result }
        ensures end { result ≡ Ok 0 → 0 < length into.old → self.old.left ≡ [] }
        ensures moved { IfOk result (λ count.
            count ≡ min (min self.old.piece (length into.old)) (length self.old.left)) }
        ensures given { let count = count_of result in
            into.new ≡ take count self.old.left ++ drop count into.old }
        ensures after { self.new ≡ record self.old {
          left = drop (count_of result) self.old.left;
          calls = after_call self.old.calls result;
        } }
    {
        self.calls.answer(true)?;
        let left = self.bytes.len() - self.start;
        let count = self.piece.min(into.len()).min(left);
        into[..count].copy_from_slice(&self.bytes[self.start..self.start + count]);
        self.start += count;
        Ok(count)
    }
}
