// A source over a reader.
ghost use Rattle.std.specs.Prelude.{◌≡◌, ◌≤◌, None, false, length, is_some, IfOk, IsErr};
ghost use Rattle.acl_ports.specs.Adapter.{after_answer};
ghost use Rattle.acl_ports.specs.Faults.{HasCause};

use crate::faults::or_fault;
use crate::{Failed, Source};
use std::io::Read;
use std::marker::Model;

/// A source over a reader, of whose bytes nothing is told. A read that a signal interrupts fails.
#[derive(Drop)]
pub struct StdSource<T> {
    reader: Option<T>,
    faults: u64,
}

impl<T> Model for StdSource<T> {
    ghost use Rattle.std.specs.Prelude.{is_some};
    ghost use Rattle.acl_ports.specs.Adapter.{AdapterState};

    ghost Value = { AdapterState };

    ghost view = { λ source. record { is_open = is_some source.reader; faults = source.faults } };
}

impl<T> StdSource<T> {
    /// `None` stands for what could not be opened: each read fails.
    pub fn new(reader: Option<T>) -> StdSource<T>
        ensures { result ≡ record { is_open = is_some reader; faults = 0 } }
    {
        StdSource { reader, faults: 0 }
    }

    /// How many reads have failed. It stays at its last value.
    pub fn faults(&self) -> u64
        ensures { result ≡ self.now.faults }
    {
        self.faults
    }
}

impl<T: Read> Source for StdSource<T> {
    ghost left = { λ _. None };

    ghost faults = { λ source. source.faults };

    fn read(&mut self, into: &mut [u8]) -> Result<usize, Failed>
        ensures closed { self.old.is_open ≡ false → IsErr result }
        ensures within { IfOk result (λ count. count ≤ length into.new) }
        ensures cause { HasCause self.old.faults self.new.faults result }
        ensures after { self.new ≡ after_answer self.old result }
    {
        let count = match &mut self.reader {
            Some(reader) => reader.read(into).ok(),
            None => None,
        };
        or_fault(count, &mut self.faults)
    }
}
