//! What stands before the first statement.
ghost use Rattle.std.specs.Prelude.{◌≡◌, ◌≤◌, ◌+◌, IfOk, OnOk};
ghost use Rattle.acl_model.specs.State.{opening as opening_state};
ghost use Rattle.row_tables.specs.Opening.{opening_below};
ghost use Rattle.row_tables.specs.Rooms.{room_of};
ghost use Rattle.row_tables.specs.Tables.{state_of};

use crate::listing::root;
use crate::room::Room;
use crate::rows::Rows;
use account_holdings::AccountHoldings;
use acl_items::Items;
use acl_model::Row;
use numbered_names::NumberedNames;
use std::alloc::{AllocError, Global};

impl Rows {
    /// What stands before the first statement: `root`@`localhost` with each privilege on `*.*`, which it may grant.
    pub fn opening(alloc: Global) -> Result<Rows, AllocError>
        ensures { IfOk result (λ rows. state_of rows ≡ opening_state) }
    {
        let mut rows = Rows::with_root(alloc)?;
        rows.hold_static(alloc)?;
        rows.hold_dynamic(alloc)?;
        Ok(rows)
    }

    fn with_root(alloc: Global) -> Result<Rows, AllocError>
        ensures { IfOk result (λ rows. state_of rows ≡ opening_below 0 0) }
    {
        let mut rows = Rows {
            accounts: NumberedNames::new(alloc),
            account_data: Vec::new(alloc),
            holdings: AccountHoldings::new(alloc),
            mandatory: Items::new(alloc),
            activate_all: false,
        };
        rows.reserve(Room {
            accounts: 1,
            schemas: 0,
            pairs: 0,
            objects: 0,
            edges: 0,
        })?;
        rows.put(Row::Account(root(alloc)?));
        Ok(rows)
    }

    fn hold_static(&mut self, alloc: Global) -> Result<(), AllocError>
        requires { state_of self.old ≡ opening_below 0 0 }
        ensures { OnOk result (state_of self.new ≡ opening_below 31 0) }
    {
        for number in 0..31 {
            self.put(Row::Global(root(alloc)?, number));
        }
        Ok(())
    }

    fn hold_dynamic(&mut self, alloc: Global) -> Result<(), AllocError>
        requires { state_of self.old ≡ opening_below 31 0 }
        ensures { OnOk result (state_of self.new ≡ opening_below 31 20) }
    {
        for number in 0..20 {
            self.put(Row::Dynamic(root(alloc)?, number));
            self.put(Row::DynamicGrant(root(alloc)?, number));
        }
        Ok(())
    }
}
