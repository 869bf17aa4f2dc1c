// The calls of a device in memory: which of them are to fail, and how many were made and failed.
ghost use Rattle.std.specs.Prelude.{◌≡◌, ◌↔◌, ◌⊎◌, IsErr, false};
ghost use Rattle.acl_ports.specs.Faults.{HasCause};

use crate::Failed;
use crate::faults::or_fault;
use std::marker::Model;

#[derive(Drop)]
pub struct CallLog {
    failing: Vec<u64>,
    made: u64,
    faults: u64,
}

impl Model for CallLog {
    ghost use Rattle.acl_ports.specs.Calls.{Calls};

    ghost Value = { Calls };

    ghost view = { λ log. record { failing = log.failing.items; made = log.made; faults = log.faults } };
}

impl CallLog {
    ghost use Rattle.acl_ports.specs.Calls.{IsListed, after_call, no_calls};

    pub fn new(failing: Vec<u64>) -> CallLog
        ensures { result ≡ no_calls failing.items }
    {
        CallLog {
            failing,
            made: 0,
            faults: 0,
        }
    }

    pub fn faults(&self) -> u64
        ensures { result ≡ self.now.faults }
    {
        self.faults
    }

    pub fn made(&self) -> u64
        ensures { result ≡ self.now.made }
    {
        self.made
    }

    // Counts a call, which fails where its number is in the list or the device has no room for it.
    pub fn answer(&mut self, has_room: bool) -> Result<(), Failed>
        ensures fails { IsErr result ↔ (IsListed self.old ⊎ (has_room ≡ false)) }
        ensures cause { HasCause self.old.faults self.new.faults result }
        ensures after { self.new ≡ after_call self.old result }
    {
        let is_listed = self.failing.contains(&self.made);
        self.made = self.made.saturating_add(1);
        or_fault((has_room && !is_listed).then_some(()), &mut self.faults)
    }
}
