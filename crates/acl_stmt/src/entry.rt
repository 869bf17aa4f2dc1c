ghost use Rattle.std.specs.Prelude.{◌≡◌, IfOk, IsTrue};
ghost use Rattle.acl_stmt.specs.Entries.{is_entry};

use crate::{Limit, Statement};
use acl_items::{Copied, Items};
use acl_names::{AuthId, Caller};
use std::alloc::{AllocError, Global};

/// An accepted statement: what the history of an account system is a list of.
#[derive(PartialEq, Eq, Drop)]
pub struct Entry {
    pub caller: Caller,
    /// The number of the call among those of its caller, from 0.
    pub number: u32,
    /// The account of the session that issued the statement.
    pub by: AuthId,
    /// The restrictions that a grant on `*.*` hands on, by the bytes of their schemas, each schema once.
    pub limits: Items<Limit>,
    pub statement: Statement,
    ghost legal: { IsTrue (is_entry limits statement) },
}

impl Entry {
    /// The same entry in memory of its own.
    pub fn copy(&self, alloc: Global) -> Result<Entry, AllocError>
        ensures { IfOk result (λ made. made ≡ self.now) }
    {
        Ok(Entry {
            caller: self.caller,
            number: self.number,
            by: self.by.copy(alloc)?,
            limits: self.limits.copy(alloc)?,
            statement: self.statement.copy(alloc)?,
        })
    }
}

impl Copied for Entry {
    fn copied(&self, alloc: Global) -> Result<Entry, AllocError> {
        self.copy(alloc)
    }
}
