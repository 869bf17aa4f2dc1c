// A sink over a writer.
ghost use Rattle.std.specs.Prelude.{◌≡◌, ◌<◌, ◌≤◌, None, false, length, is_some, IfOk, IsErr};
ghost use Rattle.acl_ports.specs.Adapter.{after_answer};
ghost use Rattle.acl_ports.specs.Faults.{HasCause};

use crate::faults::or_fault;
use crate::{Failed, Sink};
use std::io::Write;
use std::marker::Model;

/// A sink over a writer, of whose bytes nothing is told. A call that a signal interrupts fails, and so does one where
/// the writer takes no byte of a piece that is not empty.
#[derive(Drop)]
pub struct StdSink<T> {
    writer: Option<T>,
    faults: u64,
}

impl<T> Model for StdSink<T> {
    ghost use Rattle.std.specs.Prelude.{is_some};
    ghost use Rattle.acl_ports.specs.Adapter.{AdapterState};

    ghost Value = { AdapterState };

    ghost view = { λ sink. record { is_open = is_some sink.writer; faults = sink.faults } };
}

impl<T> StdSink<T> {
    /// `None` stands for what could not be opened: each call fails.
    pub fn new(writer: Option<T>) -> StdSink<T>
        ensures { result ≡ record { is_open = is_some writer; faults = 0 } }
    {
        StdSink { writer, faults: 0 }
    }

    /// How many calls have failed. It stays at its last value.
    pub fn faults(&self) -> u64
        ensures { result ≡ self.now.faults }
    {
        self.faults
    }
}

impl<T: Write> Sink for StdSink<T> {
    ghost written = { λ _. None };

    ghost faults = { λ sink. sink.faults };

    fn put(&mut self, bytes: &[u8]) -> Result<usize, Failed>
        ensures closed { self.old.is_open ≡ false → IsErr result }
        ensures within { IfOk result (λ count. count ≤ length bytes.now) }
        ensures progress { IfOk result (λ count. 0 < length bytes.now → 0 < count) }
        ensures cause { HasCause self.old.faults self.new.faults result }
        ensures after { self.new ≡ after_answer self.old result }
    {
        let count = match &mut self.writer {
            Some(writer) => writer.write(bytes).ok(),
            None => None,
        };
        let taken = count.filter(|count| *count > 0 || bytes.is_empty());
        or_fault(taken, &mut self.faults)
    }
}
