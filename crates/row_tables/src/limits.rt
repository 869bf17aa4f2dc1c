//! Limits, and room for more.
ghost use Rattle.std.specs.Prelude.{◌≡◌, ◌≤◌, ◌+◌, IfOk, IsTrue, OnOk, length, nat_lt};
ghost use Rattle.std.specs.Bool.{MatchBool};
ghost use Rattle.acl_model.specs.Counts.{HasMoreThan, IsExceeded};
ghost use Rattle.acl_model.specs.State.{State, stands};
ghost use Rattle.acl_model.specs.declared.row.Row.{Row as RowValue};
ghost use Rattle.acl_stmt.specs.declared.refusal.Full.{Full as FullOf};
ghost use Rattle.acl_names.specs.AuthId.{same_auth};
ghost use Rattle.row_tables.specs.Conditions.{HasRoom};
ghost use Rattle.row_tables.specs.Rooms.{HasRoomFor, LosesAtMost, room_of};
ghost use Rattle.row_tables.specs.Tables.{state_of};

use crate::room::Room;
use crate::rows::Rows;
use account_holdings::HoldingsRoom;
use acl_stmt::Full;
use std::alloc::{AllocError, Global};

impl Rows {
    /// Whether the rows exceed a limit. It takes counts that are kept, and walks nothing.
    pub fn exceeds(&self, what: Full) -> bool
        ensures { MatchBool result (IsExceeded (state_of self.now) what)
            (IsExceeded (state_of self.now) what → ⊥) }
    {
        self.holdings.schemas().is_sound();
        self.holdings.objects().is_sound();
        self.holdings.defaults().is_sound();
        self.holdings.roles().lists_each_edge_once();
        match what {
            Full::Accounts => self.accounts.len() > 4096,
            Full::Schemas => self.holdings.schemas().things() > 4096,
            Full::Pairs => self.holdings.schemas().len() > 262_144,
            Full::Objects => self.holdings.objects().len() > 65_536,
            Full::Edges => self.has_more_edges(65_536),
        }
    }

    /// The law that no limit is exceeded with fewer rows that is not exceeded with all. It does nothing when it runs.
    pub fn fewer_rows_exceed_no_more(&self)
        ensures { (fewer : State) (what : FullOf) →
            ((row : RowValue) → IsTrue (fewer.rows row) → IsTrue ((state_of self.now).rows row)) →
            IsExceeded fewer what → IsExceeded (state_of self.now) what }
    {
        self.holdings.schemas().is_sound();
        self.holdings.objects().is_sound();
        self.holdings.defaults().is_sound();
        self.holdings.roles().lists_each_edge_once();
    }

    // Whether more roles are granted or are default roles.
    fn has_more_edges(&self, limit: usize) -> bool
        ensures { result ≡ nat_lt limit
            (length self.now.holdings.roles.links + length self.now.holdings.defaults.entries) }
    {
        let granted = self.holdings.roles().len();
        granted > limit || self.holdings.defaults().len() > limit - granted
    }

    /// Whether one account more may come.
    pub fn has_room(&self) -> bool
        ensures { MatchBool result (HasRoom (state_of self.now))
            (HasMoreThan same_auth (λ a. IsTrue (stands (state_of self.now) a)) 4095) }
    {
        self.accounts.len() < 4096
    }

    /// Makes room for more rows. The rows stay, after an error too.
    pub fn reserve(&mut self, room: Room) -> Result<(), AllocError>
        ensures ok { OnOk result (HasRoomFor room (room_of self.new)) }
        ensures state { state_of self.new ≡ state_of self.old }
        ensures room { LosesAtMost 0 (room_of self.old) (room_of self.new) }
    {
        self.accounts.reserve(room.accounts)?;
        self.account_data.reserve(room.accounts as usize)?;
        self.holdings.reserve(HoldingsRoom {
            accounts: room.accounts,
            pairs: room.pairs,
            schemas: room.schemas,
            objects: room.objects,
            edges: room.edges,
        })
    }

    /// The same rows in memory of their own.
    pub fn copy(&self, alloc: Global) -> Result<Rows, AllocError>
        ensures { IfOk result (λ made. state_of made ≡ state_of self.now) }
    {
        Ok(Rows {
            accounts: self.accounts.copy(alloc)?,
            account_data: Vec::from_slice(alloc, &self.account_data)?,
            holdings: self.holdings.copy(alloc)?,
            mandatory: self.mandatory.copy(alloc)?,
            activate_all: self.activate_all,
        })
    }
}
