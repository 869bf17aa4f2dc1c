ghost use Rattle.std.specs.Prelude.{◌≡◌, None, IfErr, IfOk, IsTrue, OnOk};
ghost use Rattle.acl_apply.specs.Built.{is_built};
ghost use Rattle.acl_apply.specs.Causes.{IsCause};
ghost use Rattle.acl_model.specs.Acceptance.{IsAccepted, IsRefused};
ghost use Rattle.acl_model.specs.Effects.{after};
ghost use Rattle.acl_model.specs.State.{opening as opening_state};
ghost use Rattle.acl_model.specs.Verdict.{Reading, verdict_of};
ghost use Rattle.acl_rows.specs.Tables.{state_of};

use crate::check::first_missing;
use crate::levels::{dynamic_held, held_on_schema, plain_held};
use crate::restrictions::restrictions_of;
use crate::{Acting, Held, SchemaHeld, Verdict};
use acl_apply::Change;
use acl_items::Items;
use acl_names::{AuthId, Ident};
use acl_rows::Rows;
use acl_stmt::{Entry, Refusal, Request};
use std::alloc::{AllocError, Global};

/// What each account holds.
#[derive(Drop)]
pub struct PrivMap {
    rows: Rows,
}

/// A statement that was tried on a map and may be carried out.
#[derive(Drop)]
pub struct MapChange {
    change: Change,
}

impl PrivMap {
    ghost use Rattle.priv_map.specs.Denials.{denial_of};
    ghost use Rattle.priv_map.specs.MapState.{IsChangeOf, map_after, state_in};
    ghost use Rattle.priv_map.specs.Readings.{IsMaskOf, IsReadAt, reading_of, readings_of};

    /// The map over these rows.
    pub fn of(rows: Rows) -> Result<PrivMap, AllocError>
        ensures { IfOk result (λ map. state_in map ≡ state_of rows) }
    {
        Ok(PrivMap { rows })
    }

    /// The map of what stands before the first statement.
    pub fn opening(alloc: Global) -> Result<PrivMap, AllocError>
        ensures { IfOk result (λ map. state_in map ≡ opening_state) }
    {
        PrivMap::of(Rows::opening(alloc)?)
    }

    /// The rows that stand.
    pub fn rows(&self) -> &Rows
        ensures { state_of result.now ≡ state_in self.now }
    {
        &self.rows
    }

    /// Tries a statement, and changes nothing.
    pub fn prepare(&mut self, alloc: Global, entry: &Entry) -> Result<MapChange, Refusal>
        requires { IsTrue (is_built entry.now.statement) }
        ensures kept { self.new ≡ self.old }
        ensures accepted { OnOk result (IsAccepted (state_in self.old) entry.now) }
        ensures change { IfOk result (λ change.
            state_in (map_after change self.old) ≡ after entry.now (state_in self.old)) }
        ensures prepared { IfOk result (λ change. IsChangeOf change self.new) }
        ensures err { IfErr result (IsCause (IsRefused (state_in self.old) entry.now)) }
    {
        let change = acl_apply::prepare(alloc, &mut self.rows, entry)?;
        Ok(MapChange { change })
    }

    /// Carries out the change, which needs to be the one that was prepared last on this map. It takes no memory.
    pub fn commit(&mut self, change: MapChange)
        requires prepared { IsChangeOf change self.old }
        ensures { self.new ≡ map_after change self.old }
    {
        let MapChange { change } = change;
        acl_apply::commit(&mut self.rows, change);
    }

    /// How many accounts' privileges were worked out anew, all changes taken together: none, since nothing is kept but the rows.
    pub fn recomputed(&self) -> u64
        ensures { result ≡ 0 }
    {
        0
    }

    /// What a session of the account with these active roles reads at its login, before it chooses a schema.
    pub fn acting(
        &self,
        alloc: Global,
        account: &AuthId,
        roles: Items<AuthId>,
    ) -> Result<Acting, AllocError>
        ensures account { IfOk result (λ acting. acting.account ≡ account.now) }
        ensures roles { IfOk result (λ acting. acting.roles ≡ roles) }
        ensures current { IfOk result (λ acting. acting.current ≡ None) }
        ensures read { IfOk result (λ acting. (used : Reading) →
            IsReadAt acting (reading_of (state_in self.now) acting) used) }
    {
        let plain = plain_held(&self.rows, account);
        let dynamic = dynamic_held(&self.rows, account);
        let rows = self.rows.rows_of(alloc, account)?;
        let restrictions = restrictions_of(alloc, rows.as_slice(), account, plain)?;
        Ok(Acting {
            account: account.copy(alloc)?,
            roles,
            held: Held {
                plain,
                dynamic,
                restrictions,
            },
            current: None,
        })
    }

    /// What the session reads of a schema that it chooses.
    pub fn schema_held(
        &self,
        alloc: Global,
        acting: &Acting,
        schema: &Ident,
    ) -> Result<SchemaHeld, AllocError>
        ensures schema { IfOk result (λ held. held.schema ≡ schema.now) }
        ensures mask { IfOk result (λ held. IsMaskOf held (reading_of (state_in self.now) acting.now)) }
    {
        let mask = held_on_schema(&self.rows, &acting.account, schema);
        Ok(SchemaHeld {
            schema: schema.copy(alloc)?,
            mask,
        })
    }

    /// The check of a request, where this map is what stands now. It takes no memory.
    ///
    /// MySQL 8.0 Reference Manual, "Access Control, Stage 2: Request Verification".
    pub fn verdict(&self, acting: &Acting, request: &Request) -> Verdict
        ensures { (login used : Reading) → IsReadAt acting.now login used →
            denial_of result ≡ verdict_of (readings_of login used (state_in self.now) acting.now)
            request.now.privileges request.now.target }
    {
        match first_missing(&self.rows, acting, request) {
            Some(missing) => Verdict::Denied(missing),
            None => Verdict::Allowed,
        }
    }
}
