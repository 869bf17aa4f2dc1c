ghost use Rattle.std.specs.Prelude.{◌≡◌, ◌<◌, ◌≤◌, ◌+◌, ℕ, [], IfOk, IfSome, OnOk, IsTrue, false, true, is_some, length, max};
ghost use Rattle.account_holdings.specs.Globals.{global_bits};
ghost use Rattle.account_holdings.specs.Holdings.{HoldAlike, IsWith, IsWithout, holds};
ghost use Rattle.account_holdings.specs.Rooms.{HasRoomFor, LosesAtMost};
ghost use Rattle.object_bits.specs.Seen.{seen};
ghost use Rattle.role_graph.specs.Edges.{granted, with_admin};
ghost use Rattle.role_graph.specs.Paths.{Reaches};

use crate::bits::{has_bit, with_bit, without_bit};
use crate::globals::{GlobalBits, GlobalKind};
use crate::holding::Holding;
use crate::role_number::RoleNumber;
use crate::room::HoldingsRoom;
use acl_names::Ident;
use held_bits::{Bits, HeldBits};
use object_bits::{Object, ObjectBits, ObjectRef};
use role_graph::Graph;
use std::alloc::{AllocError, Global};
use std::marker::Model;

/// What accounts hold, each under its number.
///
/// Each call costs what it touches, and none but those that make room takes memory.
#[derive(Drop)]
pub struct AccountHoldings {
    globals: Vec<GlobalBits>,
    schemas: HeldBits<Ident>,
    objects: ObjectBits,
    roles: Graph,
    defaults: HeldBits<RoleNumber>,
}

impl Model for AccountHoldings {
    ghost use Rattle.std.specs.Prelude.{◌-◌, vec_capacity, vec_len};
    ghost use Rattle.account_holdings.specs.Holdings.{Holdings};

    ghost Value = { Holdings };

    ghost view = { λ s. record {
      globals = s.globals.items;
      global_room = vec_capacity s.globals - vec_len s.globals;
      schemas = s.schemas;
      objects = s.objects;
      roles = s.roles;
      defaults = s.defaults;
    } };
}

impl AccountHoldings {
    /// Nothing held by no account, which takes no memory.
    pub fn new(alloc: Global) -> AccountHoldings
        ensures globals { result.globals ≡ [] }
        ensures schemas { result.schemas.entries ≡ [] }
        ensures objects { result.objects.entries ≡ [] }
        ensures roles { result.roles.links ≡ [] }
        ensures defaults { result.defaults.entries ≡ [] }
    {
        AccountHoldings {
            globals: Vec::new(alloc),
            schemas: HeldBits::new(alloc),
            objects: ObjectBits::new(alloc),
            roles: Graph::new(alloc),
            defaults: HeldBits::new(alloc),
        }
    }

    /// The same holdings in memory of their own.
    pub fn copy(&self, alloc: Global) -> Result<AccountHoldings, AllocError>
        ensures alike { IfOk result (λ made. HoldAlike self.now made) }
        ensures accounts { IfOk result (λ made. length made.globals ≡ length self.now.globals) }
    {
        Ok(AccountHoldings {
            globals: Vec::from_slice(alloc, &self.globals)?,
            schemas: self.schemas.copy(alloc)?,
            objects: self.objects.copy(alloc)?,
            roles: self.roles.copy(alloc)?,
            defaults: self.defaults.copy(alloc)?,
        })
    }

    /// Whether the account holds the privilege on `*.*`.
    pub fn holds_on_all(&self, kind: GlobalKind, account: u32, privilege: u8) -> bool
        ensures { result ≡ holds self.now (Holding.OnAll kind account privilege) }
    {
        match self.globals.get(account as usize) {
            Some(bits) => has_bit(bits.of_kind(kind), privilege),
            None => has_bit(GlobalBits::none().of_kind(kind), privilege),
        }
    }

    /// Whether the account holds the privilege on the schema.
    pub fn holds_on_schema(&self, account: u32, schema: &Ident, privilege: u8) -> bool
        ensures { result ≡ holds self.now (Holding.OnSchema account schema.now privilege) }
    {
        has_bit(self.schemas.bits(account, schema).granted, privilege)
    }

    /// Whether the account's privilege on `*.*` does not reach the schema.
    pub fn is_restricted(&self, account: u32, schema: &Ident, privilege: u8) -> bool
        ensures { result ≡ holds self.now (Holding.Restricted account schema.now privilege) }
    {
        has_bit(self.schemas.bits(account, schema).restricted, privilege)
    }

    /// Whether the account holds the privilege on the object.
    pub fn holds_on_object(&self, account: u32, object: ObjectRef, privilege: u8) -> bool
        ensures { result ≡ holds self.now (Holding.OnObject account (seen object.entry) privilege) }
    {
        has_bit(self.objects.bits(account, object), privilege)
    }

    /// Whether the role is granted to the account.
    pub fn has_role(&self, role: u32, to: u32) -> bool
        requires role { role < 4096 }
        requires to { to < 4096 }
        ensures { result ≡ holds self.now (Holding.Edge role to) }
    {
        self.roles.admin_of(role, to).is_some()
    }

    /// Whether the account may grant the role.
    pub fn may_grant_role(&self, role: u32, to: u32) -> bool
        requires role { role < 4096 }
        requires to { to < 4096 }
        ensures { result ≡ holds self.now (Holding.Admin role to) }
    {
        self.roles.admin_of(role, to).unwrap_or(false)
    }

    /// Whether the role is a default role of the account.
    pub fn is_default(&self, of: u32, role: u32) -> bool
        ensures { result ≡ holds self.now (Holding.Default of role) }
    {
        !self.defaults.bits(of, &RoleNumber(role)).are_none()
    }

    /// Grants the account the privilege on `*.*`.
    pub fn put_on_all(&mut self, kind: GlobalKind, account: u32, privilege: u8)
        requires account { account < length self.old.globals }
        requires privilege { privilege < 32 }
        ensures with { IsWith self.old self.new (Holding.OnAll kind account privilege) }
        ensures room { LosesAtMost 0 self.old self.new }
        ensures accounts { length self.new.globals ≡ length self.old.globals }
    {
        let bits = &mut self.globals[account as usize];
        *bits = bits.with(kind, privilege);
    }

    /// Takes the privilege on `*.*` from the account.
    pub fn take_on_all(&mut self, kind: GlobalKind, account: u32, privilege: u8)
        ensures without { IsWithout self.old self.new (Holding.OnAll kind account privilege) }
        ensures room { LosesAtMost 0 self.old self.new }
        ensures accounts { length self.new.globals ≡ length self.old.globals }
    {
        if let Some(bits) = self.globals.get_mut(account as usize) {
            *bits = bits.without(kind, privilege);
        }
    }

    /// Grants the account the privilege on the schema.
    pub fn put_on_schema(&mut self, account: u32, schema: Ident, privilege: u8)
        requires privilege { privilege < 32 }
        requires pair { 0 < self.old.schemas.record_room }
        requires schema { 0 < self.old.schemas.thing_room }
        ensures with { IsWith self.old self.new (Holding.OnSchema account schema privilege) }
        ensures room { LosesAtMost 1 self.old self.new }
        ensures accounts { length self.new.globals ≡ length self.old.globals }
    {
        let before = self.schemas.bits(account, &schema);
        let bits = Bits {
            granted: with_bit(before.granted, privilege),
            restricted: before.restricted,
        };
        self.schemas.set(account, schema, bits);
    }

    /// Takes the privilege on the schema from the account.
    pub fn take_on_schema(&mut self, account: u32, schema: &Ident, privilege: u8)
        ensures without { IsWithout self.old self.new (Holding.OnSchema account schema.now privilege) }
        ensures room { LosesAtMost 0 self.old self.new }
        ensures accounts { length self.new.globals ≡ length self.old.globals }
    {
        let before = self.schemas.bits(account, schema);
        if before.are_none() {
            return;
        }
        let bits = Bits {
            granted: without_bit(before.granted, privilege),
            restricted: before.restricted,
        };
        self.schemas.replace(account, schema, bits);
    }

    /// Keeps the account's privilege on `*.*` from the schema.
    pub fn put_restriction(&mut self, account: u32, schema: Ident, privilege: u8)
        requires privilege { privilege < 32 }
        requires pair { 0 < self.old.schemas.record_room }
        requires schema { 0 < self.old.schemas.thing_room }
        ensures with { IsWith self.old self.new (Holding.Restricted account schema privilege) }
        ensures room { LosesAtMost 1 self.old self.new }
        ensures accounts { length self.new.globals ≡ length self.old.globals }
    {
        let before = self.schemas.bits(account, &schema);
        let bits = Bits {
            granted: before.granted,
            restricted: with_bit(before.restricted, privilege),
        };
        self.schemas.set(account, schema, bits);
    }

    /// Lifts the restriction of the account's privilege on the schema.
    pub fn take_restriction(&mut self, account: u32, schema: &Ident, privilege: u8)
        ensures without { IsWithout self.old self.new (Holding.Restricted account schema.now privilege) }
        ensures room { LosesAtMost 0 self.old self.new }
        ensures accounts { length self.new.globals ≡ length self.old.globals }
    {
        let before = self.schemas.bits(account, schema);
        if before.are_none() {
            return;
        }
        let bits = Bits {
            granted: before.granted,
            restricted: without_bit(before.restricted, privilege),
        };
        self.schemas.replace(account, schema, bits);
    }

    /// Grants the account the privilege on the object.
    pub fn put_on_object(&mut self, account: u32, object: Object, privilege: u8)
        requires privilege { privilege < 32 }
        requires pair { 0 < self.old.objects.record_room }
        requires object { 0 < self.old.objects.thing_room }
        ensures with { IsWith self.old self.new (Holding.OnObject account object privilege) }
        ensures room { LosesAtMost 1 self.old self.new }
        ensures accounts { length self.new.globals ≡ length self.old.globals }
    {
        let before = self.objects.bits(account, object.by_reference());
        self.objects
            .put(account, object, with_bit(before, privilege));
    }

    /// Takes the privilege on the object from the account.
    pub fn take_on_object(&mut self, account: u32, object: ObjectRef, privilege: u8)
        ensures without { IsWithout self.old self.new (Holding.OnObject account (seen object.entry) privilege) }
        ensures room { LosesAtMost 0 self.old self.new }
        ensures accounts { length self.new.globals ≡ length self.old.globals }
    {
        let before = self.objects.bits(account, object);
        if before == 0 {
            return;
        }
        self.objects
            .replace(account, object, without_bit(before, privilege));
    }

    /// What accounts hold on tables, columns and routines.
    pub fn objects(&self) -> &ObjectBits
        ensures { result.now ≡ self.now.objects }
    {
        &self.objects
    }

    /// Grants the role to the account; an edge that stands stays as it is.
    pub fn put_role(&mut self, role: u32, to: u32)
        requires role { role < 4096 }
        requires to { to < 4096 }
        requires no_loop { Reaches (granted self.old.roles) role to → ⊥ }
        requires edge { 0 < self.old.roles.room }
        ensures with { IsWith self.old self.new (Holding.Edge role to) }
        ensures room { LosesAtMost 1 self.old self.new }
        ensures accounts { length self.new.globals ≡ length self.old.globals }
    {
        let _ = self.roles.add_edge(role, to, false);
    }

    /// Lets the account grant the role, which is granted to it.
    pub fn put_admin(&mut self, role: u32, to: u32)
        requires role { role < 4096 }
        requires to { to < 4096 }
        requires granted { IsTrue (granted self.old.roles role to) }
        requires edge { 0 < self.old.roles.room }
        ensures with { IsWith self.old self.new (Holding.Admin role to) }
        ensures room { LosesAtMost 1 self.old self.new }
        ensures accounts { length self.new.globals ≡ length self.old.globals }
    {
        self.roles.has_no_loops();
        let _ = self.roles.add_edge(role, to, true);
    }

    /// Takes the role from the account, which may not grant it.
    pub fn take_role(&mut self, role: u32, to: u32)
        requires role { role < 4096 }
        requires to { to < 4096 }
        requires no_option { with_admin self.old.roles role to ≡ false }
        ensures without { IsWithout self.old self.new (Holding.Edge role to) }
        ensures room { LosesAtMost 0 self.old self.new }
        ensures accounts { length self.new.globals ≡ length self.old.globals }
    {
        self.roles.remove_edge(role, to);
    }

    /// Makes the role a default role of the account.
    pub fn put_default(&mut self, of: u32, role: u32)
        requires pair { 0 < self.old.defaults.record_room }
        requires role { 0 < self.old.defaults.thing_room }
        ensures with { IsWith self.old self.new (Holding.Default of role) }
        ensures room { LosesAtMost 1 self.old self.new }
        ensures accounts { length self.new.globals ≡ length self.old.globals }
    {
        let bits = Bits {
            granted: 1,
            restricted: 0,
        };
        self.defaults.set(of, RoleNumber(role), bits);
    }

    /// Takes the role from the default roles of the account.
    pub fn take_default(&mut self, of: u32, role: u32)
        ensures without { IsWithout self.old self.new (Holding.Default of role) }
        ensures room { LosesAtMost 0 self.old self.new }
        ensures accounts { length self.new.globals ≡ length self.old.globals }
    {
        self.defaults.clear(of, &RoleNumber(role));
    }

    /// Takes the right to grant the role from the account, which keeps the role.
    pub fn take_admin(&mut self, role: u32, to: u32)
        requires role { role < 4096 }
        requires to { to < 4096 }
        ensures without { IsWithout self.old self.new (Holding.Admin role to) }
        ensures room { LosesAtMost 0 self.old self.new }
        ensures accounts { length self.new.globals ≡ length self.old.globals }
    {
        if self.may_grant_role(role, to) {
            self.roles.has_no_loops();
            self.roles.remove_edge(role, to);
            let _ = self.roles.add_edge(role, to, false);
        }
    }

    /// Lets the account of a number hold things; it holds nothing yet.
    pub fn add_account(&mut self, account: u32)
        requires next { account ≤ length self.old.globals }
        requires room { 0 < self.old.global_room }
        ensures alike { HoldAlike self.old self.new }
        ensures room { LosesAtMost 1 self.old self.new }
        ensures accounts { length self.new.globals ≡ max (length self.old.globals) (account + 1) }
    {
        if account as usize == self.globals.len() {
            self.globals.push(GlobalBits::none()).unwrap();
        }
    }

    /// What the account holds on `*.*`.
    pub fn globals_of(&self, account: u32) -> GlobalBits
        ensures { result ≡ global_bits self.now.globals account }
    {
        match self.globals.get(account as usize) {
            Some(bits) => *bits,
            None => GlobalBits::none(),
        }
    }

    /// What accounts hold on schemas, and what is kept from them.
    pub fn schemas(&self) -> &HeldBits<Ident>
        ensures { result.now ≡ self.now.schemas }
    {
        &self.schemas
    }

    /// Which roles are granted.
    pub fn roles(&self) -> &Graph
        ensures { result.now ≡ self.now.roles }
    {
        &self.roles
    }

    /// Which roles are default roles.
    pub fn defaults(&self) -> &HeldBits<RoleNumber>
        ensures { result.now ≡ self.now.defaults }
    {
        &self.defaults
    }

    /// Makes room for so many more of each. What is held stays, after an error too.
    pub fn reserve(&mut self, room: HoldingsRoom) -> Result<(), AllocError>
        ensures ok { OnOk result (HasRoomFor room self.new) }
        ensures alike { HoldAlike self.old self.new }
        ensures room { LosesAtMost 0 self.old self.new }
        ensures accounts { length self.new.globals ≡ length self.old.globals }
    {
        self.globals.reserve(room.accounts as usize)?;
        self.schemas.reserve(room.pairs, room.schemas)?;
        self.objects.reserve(room.objects, room.objects)?;
        self.roles.reserve(room.edges)?;
        self.defaults.reserve(room.edges, room.edges)
    }
}
