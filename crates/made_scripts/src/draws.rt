//! Draws from a number, and what is drawn for a line.
ghost use Rattle.std.specs.Prelude.{◌≡◌, ◌<◌};
ghost use Rattle.made_scripts.specs.Draws.{behind_line, deed_of, draw_at, draw_count, kind_at, line_at, next_state, right_at, state_after};

use crate::deed::{Deed, MadeLine, Right};

// The multiplier and the increment of D. E. Knuth's MMIX.
const MULTIPLIER: u64 = 6_364_136_223_846_793_005;

const INCREMENT: u64 = 1_442_695_040_888_963_407;

const USERS: u64 = 200;

const ROLES: u64 = 50;

const SCHEMAS: u64 = 20;

/// What kind of command a line has.
#[derive(Clone, Copy, PartialEq, Eq)]
pub(crate) enum Kind {
    Creation,
    RoleCreation,
    SchemaGrant,
    RoleGrant,
    GlobalGrant,
    SchemaRevoke,
    SchemaUse,
    TableCheck,
}

// In the order of their numbers.
static KINDS: [Kind; 8] = [
    Kind::Creation,
    Kind::RoleCreation,
    Kind::SchemaGrant,
    Kind::RoleGrant,
    Kind::GlobalGrant,
    Kind::SchemaRevoke,
    Kind::SchemaUse,
    Kind::TableCheck,
];

static RIGHTS: [Right; 4] = [Right::Select, Right::Insert, Right::Update, Right::Delete];

/// A linear congruential generator modulo 2^64.
#[derive(Drop)]
pub(crate) struct Draws {
    state: u64,
}

impl Draws {
    pub(crate) fn new(number: u64) -> Draws
        ensures { result.state ≡ number }
    {
        Draws { state: number }
    }

    /// The line that is drawn next, for one of this many sessions.
    pub(crate) fn line(&mut self, sessions: u64) -> MadeLine
        requires { 0 < sessions }
        ensures line { result ≡ line_at sessions self.old.state }
        ensures state { self.new.state ≡ behind_line self.old.state }
    {
        let session = self.draw(sessions);
        let kind = self.kind();
        let deed = self.deed(kind);
        MadeLine { session, deed }
    }

    // What a line of this kind does.
    fn deed(&mut self, kind: Kind) -> Deed
        ensures deed { result ≡ deed_of kind self.old.state }
        ensures state { self.new.state ≡ state_after self.old.state (draw_count kind) }
    {
        match kind {
            Kind::Creation => Deed::CreateUser {
                user: self.draw(USERS),
            },
            Kind::RoleCreation => Deed::CreateRole {
                role: self.draw(ROLES),
            },
            Kind::SchemaGrant => Deed::GrantOnSchema {
                right: self.right(),
                schema: self.draw(SCHEMAS),
                user: self.draw(USERS),
            },
            Kind::RoleGrant => Deed::GrantRole {
                role: self.draw(ROLES),
                user: self.draw(USERS),
            },
            Kind::GlobalGrant => Deed::GrantEverywhere {
                right: self.right(),
                role: self.draw(ROLES),
            },
            Kind::SchemaRevoke => Deed::RevokeOnSchema {
                right: self.right(),
                schema: self.draw(SCHEMAS),
                role: self.draw(ROLES),
            },
            Kind::SchemaUse => Deed::UseSchema {
                schema: self.draw(SCHEMAS),
            },
            Kind::TableCheck => Deed::CheckOnTable {
                right: self.right(),
                schema: self.draw(SCHEMAS),
            },
        }
    }

    fn kind(&mut self) -> Kind
        ensures kind { result ≡ kind_at self.old.state 1 }
        ensures state { self.new.state ≡ next_state self.old.state }
    {
        KINDS[self.draw(8) as usize]
    }

    fn right(&mut self) -> Right
        ensures right { result ≡ right_at self.old.state 1 }
        ensures state { self.new.state ≡ next_state self.old.state }
    {
        RIGHTS[self.draw(4) as usize]
    }

    // A number below this one. The higher bits of the state make it, for the lower ones repeat sooner.
    #[tactic(auto, unfolding(crate::specs::Draws::next_state, crate::specs::Draws::drawn))]
    fn draw(&mut self, below: u64) -> u64
        requires { 0 < below }
        ensures drawn { result ≡ draw_at self.old.state 1 below }
        ensures below { result < below }
        ensures state { self.new.state ≡ next_state self.old.state }
    {
        self.state = self.state.wrapping_mul(MULTIPLIER).wrapping_add(INCREMENT);
        (self.state >> 33) % below
    }
}
