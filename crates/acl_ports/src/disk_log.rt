// The calls of a disk in memory, recorded with what is needed to undo them.
ghost use Rattle.std.specs.Prelude.{◌≡◌, ◌↔◌, ◌⊎◌, ◌≤◌, [], reverse, IfOk, IsErr, false};
ghost use Rattle.acl_ports.specs.Calls.{IsListed, no_calls};
ghost use Rattle.acl_ports.specs.Faults.{HasCause};

use crate::Failed;
use crate::calls::CallLog;
use std::alloc::{AllocError, Global};
use std::marker::Model;

// What a call did.
#[derive(Clone, Copy, Drop)]
pub enum Call {
    // It wrote nothing and synced nothing.
    Passed,
    // It wrote this many bytes there in part, or none of them.
    Broken {
        at: usize,
        count: usize,
    },
    // It wrote this many bytes there, `over` of them in the place of others.
    Written {
        at: usize,
        count: usize,
        over: usize,
    },
    // It synced all that was written.
    Synced,
}

#[derive(Drop)]
pub struct DiskLog {
    recorded: Vec<Call>,
    most: usize,
    calls: CallLog,
}

impl Model for DiskLog {
    ghost use Rattle.std.specs.Prelude.{◌≡◌, ◌≤◌, min, length, reverse, vec_capacity};
    ghost use Rattle.acl_ports.specs.DiskLog.{LogState};

    ghost Value = { LogState };

    ghost view = { λ log. record {
      log = reverse log.recorded.items;
      most = log.most;
      calls = log.calls;
    } };

    ghost invariant = { λ log. (length log.recorded.items ≤ log.calls.made)
        × (length log.recorded.items ≤ log.most)
        × (log.most ≤ vec_capacity log.recorded) };
}

impl DiskLog {
    ghost use Rattle.acl_ports.specs.DiskLog.{after_logged};

    // With the memory to record that many calls.
    pub fn new(alloc: Global, most: usize, failing: Vec<u64>) -> Result<DiskLog, AllocError>
        ensures { IfOk result (λ log. log ≡ record {
          log = [];
          most = most;
          calls = no_calls failing.items;
        }) }
    {
        Ok(DiskLog {
            recorded: Vec::with_capacity(alloc, most)?,
            most,
            calls: CallLog::new(failing),
        })
    }

    pub fn faults(&self) -> u64
        ensures { result ≡ self.now.calls.faults }
    {
        self.calls.faults()
    }

    // Counts and records a call, which fails where its number is in the list, where it can't be recorded, or where the
    // device has no room for it.
    pub fn answer(&mut self, has_room: bool, done: Call, broken: Call) -> Result<(), Failed>
        ensures fails { IsErr result
            ↔ (IsListed self.old.calls ⊎ (self.old.most ≤ self.old.calls.made) ⊎ (has_room ≡ false)) }
        ensures cause { HasCause self.old.calls.faults self.new.calls.faults result }
        ensures after { self.new ≡ after_logged self.old done broken result }
    {
        let is_recorded = self.calls.made() < self.most as u64;
        let result = self.calls.answer(is_recorded && has_room);
        if is_recorded {
            let call = if result.is_ok() { done } else { broken };
            self.recorded.push(call).unwrap();
        }
        result
    }

    // The calls, the first one first.
    pub fn into_recorded(self) -> Vec<Call>
        ensures { reverse result.items ≡ self.log }
    {
        self.recorded
    }
}
