ghost use Rattle.std.specs.Prelude.{◌≡◌, ◌+◌, ◌<◌, ◌^◌, ◌∷◌, ◌++◌, [], false, length, vec_len, IfErr, IfOk, IsTrue, OnErr, OnOk};
ghost use Rattle.std.proofs.Props.{props};
ghost use Rattle.acl_apply.specs.Built.{is_built};
ghost use Rattle.acl_apply.specs.Causes.{IsCause};
ghost use Rattle.acl_model.specs.Acceptance.{IsAccepted, IsRefused};
ghost use Rattle.acl_model.specs.Effects.{state_after};
ghost use Rattle.acl_model.specs.State.{opening as opening_state};
ghost use Rattle.priv_map.specs.MapState.{state_in};

use acl_stmt::{Entry, Refusal};
use priv_map::{MapChange, PrivMap};
use std::alloc::{AllocError, Global};

/// The accepted statements that are published, and the map after them.
#[derive(Drop)]
pub struct Published {
    entries: Vec<Entry>,
    ended: bool,
    map: PrivMap,
    ghost within: { vec_len entries < 2 ^ 32 },
    ghost stands: { state_in map ≡ state_after entries.items opening_state } by { Prim.hlevel props },
}

/// A statement that was tried and may be accepted next.
#[derive(Drop)]
pub struct Next {
    entry: Entry,
    change: MapChange,
}

impl Published {
    ghost use Rattle.map_publish.specs.History.{IsNext, ended_in, entries_of, entry_of, map_of, state_of};

    /// Before the first statement.
    pub fn opening(alloc: Global) -> Result<Published, AllocError>
        ensures entries { IfOk result (λ made. entries_of made ≡ []) }
        ensures ended { IfOk result (λ made. ended_in made ≡ false) }
    {
        Ok(Published {
            entries: Vec::new(alloc),
            ended: false,
            map: PrivMap::opening(alloc)?,
        })
    }

    /// The accepted statements, the oldest first.
    pub fn entries(&self) -> &[Entry]
        ensures { result.now ≡ entries_of self.now }
    {
        self.entries.as_slice()
    }

    /// The number of accepted statements.
    pub fn length(&self) -> u32
        ensures { result ≡ length (entries_of self.now) }
    {
        self.entries.len() as u32
    }

    /// Whether no further statement comes.
    pub fn ended(&self) -> bool
        ensures { result ≡ ended_in self.now }
    {
        self.ended
    }

    /// What each account holds after these statements.
    pub fn map(&self) -> &PrivMap
        ensures { state_in result.now ≡ state_of self.now }
    {
        &self.map
    }

    /// Tries a statement, and makes room for it. Nothing is published by it.
    pub fn prepare(&mut self, alloc: Global, entry: Entry) -> Result<Next, Refusal>
        requires { IsTrue (is_built entry.statement) }
        ensures entries { entries_of self.new ≡ entries_of self.old }
        ensures ended { ended_in self.new ≡ ended_in self.old }
        ensures map { map_of self.new ≡ map_of self.old }
        ensures accepted { OnOk result (IsAccepted (state_after (entries_of self.old) opening_state) entry) }
        ensures next { IfOk result (λ next. IsNext next self.new) }
        ensures entry { IfOk result (λ next. entry_of next ≡ entry) }
        ensures err { IfErr result (IsCause
            (IsRefused (state_after (entries_of self.old) opening_state) entry)) }
    {
        let Ok(()) = self.entries.reserve(1) else {
            return Err(Refusal::NoMemory);
        };
        match self.map.prepare(alloc, &entry) {
            Ok(change) => Ok(Next { entry, change }),
            Err(refusal) => Err(refusal),
        }
    }

    /// Publishes the statement, which needs to be the one that was prepared last on these. It takes no memory.
    pub fn commit(&mut self, next: Next)
        requires room { length (entries_of self.old) + 1 < 2 ^ 32 }
        requires next { IsNext next self.old }
        ensures entries { entries_of self.new ≡ entries_of self.old ++ entry_of next ∷ [] }
        ensures ended { ended_in self.new ≡ ended_in self.old }
    {
        let Next { entry, change } = next;
        self.map.commit(change);
        // There is room, so this never fails.
        let _ = self.entries.push(entry);
    }

    /// Publishes a statement that is accepted after those that are. An error changes nothing.
    pub fn accept(&mut self, alloc: Global, entry: Entry) -> Result<(), AllocError>
        requires built { IsTrue (is_built entry.statement) }
        requires accepted { IsAccepted (state_after (entries_of self.old) opening_state) entry }
        requires room { length (entries_of self.old) + 1 < 2 ^ 32 }
        ensures ok { OnOk result (entries_of self.new ≡ entries_of self.old ++ entry ∷ []) }
        ensures err { OnErr result (entries_of self.new ≡ entries_of self.old) }
        ensures ended { ended_in self.new ≡ ended_in self.old }
    {
        match self.prepare(alloc, entry) {
            Ok(next) => {
                self.commit(next);
                Ok(())
            }
            Err(_) => Err(AllocError),
        }
    }
}
