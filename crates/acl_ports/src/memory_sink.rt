// A sink that keeps what is written in memory.
ghost use Rattle.std.specs.Prelude.{◌≡◌, ◌↔◌, ◌⊎◌, ◌<◌, ◌≤◌, ◌+◌, ◌++◌, [], length, take, min, Some, IfOk, IsErr};
ghost use Rattle.acl_ports.specs.Calls.{IsListed, after_call, count_of, no_calls};
ghost use Rattle.acl_ports.specs.Faults.{HasCause};

use crate::calls::CallLog;
use crate::{Failed, Sink};
use std::alloc::{AllocError, Global};
use std::marker::Model;

/// A sink that keeps in memory what is written. A call takes at most `piece` bytes. It fails where its number is in a
/// list, and where the sink would hold more than `room` bytes.
#[derive(Drop)]
pub struct MemorySink {
    bytes: Vec<u8>,
    piece: usize,
    room: usize,
    calls: CallLog,
}

impl Model for MemorySink {
    ghost use Rattle.std.specs.Prelude.{◌≤◌, length, vec_capacity};
    ghost use Rattle.acl_ports.specs.MemorySink.{SinkState};

    ghost Value = { SinkState };

    ghost view = { λ sink. record {
      written = sink.bytes.items;
      piece = sink.piece;
      room = sink.room;
      calls = sink.calls;
    } };

    ghost invariant = { λ sink. (length sink.bytes.items ≤ sink.room)
        × (sink.room ≤ vec_capacity sink.bytes)
        × (1 ≤ sink.piece) };
}

impl MemorySink {
    /// An empty sink, with all the memory that it can need. `failing` has the numbers of the calls that fail, counted
    /// from 0.
    pub fn new(
        alloc: Global,
        piece: usize,
        room: usize,
        failing: Vec<u64>,
    ) -> Result<MemorySink, AllocError>
        requires { 1 ≤ piece }
        ensures { IfOk result (λ sink. sink ≡ record {
          written = [];
          piece = piece;
          room = room;
          calls = no_calls failing.items;
        }) }
    {
        Ok(MemorySink {
            bytes: Vec::with_capacity(alloc, room)?,
            piece,
            room,
            calls: CallLog::new(failing),
        })
    }

    /// The bytes that were written.
    pub fn written(&self) -> &[u8]
        ensures { result.now ≡ self.now.written }
    {
        &self.bytes
    }

    /// How many calls have failed. It stays at its last value.
    pub fn faults(&self) -> u64
        ensures { result ≡ self.now.calls.faults }
    {
        self.calls.faults()
    }
}

impl Sink for MemorySink {
    ghost written = { λ sink. Some sink.written };

    ghost faults = { λ sink. sink.calls.faults };

    fn put(&mut self, bytes: &[u8]) -> Result<usize, Failed>
        ensures fails { let count = min self.old.piece (length bytes.now) in
            IsErr result ↔ (IsListed self.old.calls ⊎ (self.old.room < length self.old.written + count)) }
        ensures cause { HasCause self.old.calls.faults self.new.calls.faults result }
        ensures progress { IfOk result (λ count. 0 < length bytes.now → 0 < count) }
        ensures moved { IfOk result (λ count. count ≡ min self.old.piece (length bytes.now)) }
        ensures after { self.new ≡ record self.old {
          written = self.old.written ++ take (count_of result) bytes.now;
          calls = after_call self.old.calls result;
        } }
    {
        let count = self.piece.min(bytes.len());
        self.calls.answer(count <= self.room - self.bytes.len())?;
        self.bytes.extend_from_slice(&bytes[..count]).unwrap();
        Ok(count)
    }
}
