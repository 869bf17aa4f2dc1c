// A disk over a file of the system.
ghost use Rattle.std.specs.Prelude.{◌≡◌, ◌↔◌, ◌≤◌, None, Some, false, length, is_some, IfOk, IsErr};
ghost use Rattle.acl_ports.specs.Faults.{HasCause};
ghost use Rattle.acl_ports.specs.FileDisk.{after_answer};

use crate::faults::or_fault;
use crate::{Disk, Failed};
use std::fs::File;
use std::marker::Model;
use std::os::unix::fs::FileExt;

/// A disk over a file of the system, of whose bytes nothing is told. A write and a sync that a signal interrupts are
/// tried again, and a read fails.
#[derive(Drop)]
pub struct FileDisk {
    file: Option<File>,
    made: u64,
    faults: u64,
}

impl Model for FileDisk {
    ghost use Rattle.std.specs.Prelude.{is_some};
    ghost use Rattle.acl_ports.specs.FileDisk.{FileState};

    ghost Value = { FileState };

    ghost view = { λ disk. record {
      is_open = is_some disk.file;
      made = disk.made;
      faults = disk.faults;
    } };
}

impl FileDisk {
    /// `None` stands for what could not be opened: each call fails.
    pub fn new(file: Option<File>) -> FileDisk
        ensures { result ≡ record { is_open = is_some file; made = 0; faults = 0 } }
    {
        FileDisk {
            file,
            made: 0,
            faults: 0,
        }
    }

    /// How many calls have failed. It stays at its last value.
    pub fn faults(&self) -> u64
        ensures { result ≡ self.now.faults }
    {
        self.faults
    }

    // Counts a call that was answered.
    fn answered<T>(&mut self, answer: Option<T>) -> Result<T, Failed>
        ensures ok { IfOk result (λ value. answer ≡ Some value) }
        ensures err { IsErr result ↔ (answer ≡ None) }
        ensures cause { HasCause self.old.faults self.new.faults result }
        ensures later { self.old.made ≤ self.new.made }
        ensures after { self.new ≡ after_answer self.old result }
    {
        self.made = self.made.saturating_add(1);
        or_fault(answer, &mut self.faults)
    }
}

impl Disk for FileDisk {
    ghost content = { λ _. None };

    ghost moment = { λ disk. disk.made };

    ghost pending = { λ _ _. None };

    ghost faults = { λ disk. disk.faults };

    fn length(&mut self) -> Result<u64, Failed>
        ensures closed { self.old.is_open ≡ false → IsErr result }
        ensures cause { HasCause self.old.faults self.new.faults result }
        ensures later { self.old.made ≤ self.new.made }
        ensures after { self.new ≡ after_answer self.old result }
    {
        let count = match &self.file {
            Some(file) => file.metadata().ok().map(|metadata| metadata.len()),
            None => None,
        };
        self.answered(count)
    }

    fn read(&mut self, at: u64, into: &mut [u8]) -> Result<usize, Failed>
        ensures closed { self.old.is_open ≡ false → IsErr result }
        ensures within { IfOk result (λ count. count ≤ length into.new) }
        ensures cause { HasCause self.old.faults self.new.faults result }
        ensures later { self.old.made ≤ self.new.made }
        ensures after { self.new ≡ after_answer self.old result }
    {
        let count = match &self.file {
            Some(file) => file.read_at(into, at).ok(),
            None => None,
        };
        self.answered(count)
    }

    fn write_at(&mut self, at: u64, bytes: &[u8]) -> Result<(), Failed>
        ensures closed { self.old.is_open ≡ false → IsErr result }
        ensures cause { HasCause self.old.faults self.new.faults result }
        ensures later { self.old.made ≤ self.new.made }
        ensures after { self.new ≡ after_answer self.old result }
    {
        let done = match &self.file {
            Some(file) => file.write_all_at(bytes, at).ok(),
            None => None,
        };
        self.answered(done)
    }

    fn sync(&mut self) -> Result<(), Failed>
        ensures closed { self.old.is_open ≡ false → IsErr result }
        ensures cause { HasCause self.old.faults self.new.faults result }
        ensures later { self.old.made ≤ self.new.made }
        ensures after { self.new ≡ after_answer self.old result }
    {
        let done = match &self.file {
            Some(file) => file.sync_all().ok(),
            None => None,
        };
        self.answered(done)
    }
}
