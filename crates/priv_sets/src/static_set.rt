//! Sets of static privileges.
ghost use Rattle.std.specs.Prelude.{⊤, ◌≡◌, ℕ, ◌==◌, ◌||◌, ◌&&◌, ◌<◌, ◌^◌, ◌↔◌, false, not, IsTrue, IsNone, IsSome, IfSome};
ghost use Rattle.priv_sets.specs.Levels.{grant_option, has_level};
ghost use Rattle.priv_sets.specs.StaticFlags.{static_flags};

use crate::{Level, Plain, StaticIter};
use bitflags::{Flag, Flags, bitflag_items};

/// A set of static privileges and GRANT OPTION: bit i stands for the privilege of number i.
///
/// Each constant is the set of one privilege. Join sets by `union` and `difference`, since the
/// operators have no contracts. `from_bits_retain` of `Flags` also keeps bit 31, which stands for no
/// privilege.
#[derive(Clone, Copy, Debug, PartialEq, Eq, Hash)]
pub struct Static(u32);

bitflag_items! {
    impl Static: u32 {
        const SELECT = 1 << 0;
        const INSERT = 1 << 1;
        const UPDATE = 1 << 2;
        const DELETE = 1 << 3;
        const CREATE = 1 << 4;
        const DROP = 1 << 5;
        const RELOAD = 1 << 6;
        const SHUTDOWN = 1 << 7;
        const PROCESS = 1 << 8;
        const FILE = 1 << 9;
        const REFERENCES = 1 << 10;
        const INDEX = 1 << 11;
        const ALTER = 1 << 12;
        const SHOW_DATABASES = 1 << 13;
        const SUPER = 1 << 14;
        const CREATE_TEMPORARY_TABLES = 1 << 15;
        const LOCK_TABLES = 1 << 16;
        const EXECUTE = 1 << 17;
        const REPLICATION_SLAVE = 1 << 18;
        const REPLICATION_CLIENT = 1 << 19;
        const CREATE_VIEW = 1 << 20;
        const SHOW_VIEW = 1 << 21;
        const CREATE_ROUTINE = 1 << 22;
        const ALTER_ROUTINE = 1 << 23;
        const CREATE_USER = 1 << 24;
        const EVENT = 1 << 25;
        const TRIGGER = 1 << 26;
        const CREATE_TABLESPACE = 1 << 27;
        const CREATE_ROLE = 1 << 28;
        const DROP_ROLE = 1 << 29;
        const GRANT_OPTION = 1 << 30;
    }
}

impl Flags for Static {
    type Bits = u32;

    ghost exact = { ⊤ };

    ghost table = { static_flags };

    ghost set_of = { λ set. set.0 };

    fn flags<'a>() -> &'a [Flag<Static>] {
        Static::FLAGS
    }

    fn bits(&self) -> u32 {
        self.0
    }

    fn from_bits_retain(bits: u32) -> Static {
        Static(bits)
    }
}

// The sets of each row of the table of levels, as bits.
const OF_COLUMNS: u32 = Static::SELECT.0
    | Static::INSERT.0
    | Static::UPDATE.0
    | Static::REFERENCES.0;

const OF_TABLES: u32 = Static::DELETE.0
    | Static::CREATE.0
    | Static::DROP.0
    | Static::INDEX.0
    | Static::ALTER.0
    | Static::CREATE_VIEW.0
    | Static::SHOW_VIEW.0
    | Static::TRIGGER.0;

const OF_ROUTINES: u32 = Static::EXECUTE.0 | Static::ALTER_ROUTINE.0;

const OF_SCHEMAS: u32 = Static::CREATE_TEMPORARY_TABLES.0
    | Static::LOCK_TABLES.0
    | Static::CREATE_ROUTINE.0
    | Static::EVENT.0;

const GRANT_OPTION: u32 = Static::GRANT_OPTION.0;

impl Static {
    ghost use Rattle.priv_sets.specs.StaticIter.{left};
    ghost use Rattle.priv_sets.specs.StaticSet.{holds, bits_of, is_known, is_missing, members};

    /// The set that holds no privilege.
    pub fn none() -> Static
        ensures members { (q : ℕ) → holds result q ≡ false }
        ensures known { IsTrue (is_known result) }
    {
        Static(0)
    }

    /// The set of one privilege.
    pub fn of(privilege: Plain) -> Static
        ensures members { (q : ℕ) → holds result q ≡ (q == privilege) }
        ensures known { IsTrue (is_known result) }
    {
        Static::none().with(privilege)
    }

    /// The privileges that are granted at a level, GRANT OPTION too where it is.
    pub fn at_level(level: Level) -> Static
        ensures members { (q : ℕ) → holds result q ≡ has_level level q }
        ensures known { IsTrue (is_known result) }
    {
        Static(match level {
            Level::Column => OF_COLUMNS,
            Level::Table => OF_COLUMNS | OF_TABLES | GRANT_OPTION,
            Level::Routine => OF_ROUTINES | GRANT_OPTION,
            Level::Schema => OF_COLUMNS | OF_TABLES | OF_ROUTINES | OF_SCHEMAS | GRANT_OPTION,
            Level::Global => (1 << 31) - 1,
        })
    }

    /// The privileges for which ALL stands at a level: all but GRANT OPTION.
    pub fn all_at_level(level: Level) -> Static
        ensures members { (q : ℕ) → holds result q ≡
            (not (q == grant_option) && has_level level q) }
        ensures known { IsTrue (is_known result) }
    {
        Static::at_level(level).without(Plain::grant_option())
    }

    /// The set of a number, where each of its bits stands for a privilege.
    pub fn from_bits(bits: u32) -> Option<Static>
        ensures value { IfSome result (λ set. bits_of set ≡ bits) }
        ensures known { IfSome result (λ set. IsTrue (is_known set)) }
        ensures within { IsSome result ↔ (bits < 2 ^ 31) }
    {
        if bits < 1 << 31 {
            Some(Static(bits))
        } else {
            None
        }
    }

    /// The number whose bit i is 1 exactly where the set holds the privilege of number i.
    pub fn bits(self) -> u32
        ensures { result ≡ bits_of self }
    {
        self.0
    }

    /// The set with one privilege more.
    #[must_use]
    pub fn with(self, privilege: Plain) -> Static
        ensures members { (q : ℕ) → holds result q ≡ (q == privilege || holds self q) }
        ensures known { IsTrue (is_known self) → IsTrue (is_known result) }
    {
        Static(self.0 | 1 << privilege.number())
    }

    /// The set with one privilege less.
    #[must_use]
    pub fn without(self, privilege: Plain) -> Static
        ensures members { (q : ℕ) → holds result q ≡ (not (q == privilege) && holds self q) }
        ensures known { IsTrue (is_known self) → IsTrue (is_known result) }
    {
        Static(self.0 & !(1 << privilege.number()))
    }

    /// The privileges that either set holds.
    #[must_use]
    pub fn union(self, other: Static) -> Static
        ensures members { (q : ℕ) → holds result q ≡ (holds self q || holds other q) }
        ensures known { IsTrue (is_known self) → IsTrue (is_known other) →
            IsTrue (is_known result) }
    {
        Static(self.0 | other.0)
    }

    /// The privileges that both sets hold.
    #[must_use]
    pub fn intersection(self, other: Static) -> Static
        ensures members { (q : ℕ) → holds result q ≡ (holds self q && holds other q) }
        ensures known { IsTrue (is_known self) → IsTrue (is_known result) }
    {
        Static(self.0 & other.0)
    }

    /// The privileges that this set holds and the other does not.
    #[must_use]
    pub fn difference(self, other: Static) -> Static
        ensures members { (q : ℕ) → holds result q ≡ (holds self q && not (holds other q)) }
        ensures known { IsTrue (is_known self) → IsTrue (is_known result) }
    {
        Static(self.0 & !other.0)
    }

    /// Whether the set holds a privilege.
    pub fn has(self, privilege: Plain) -> bool
        ensures { result ≡ holds self privilege }
    {
        self.0 >> privilege.number() & 1 == 1
    }

    /// Whether the set holds no privilege.
    pub fn is_empty(self) -> bool
        ensures { IsTrue result ↔ ((q : ℕ) → holds self q ≡ false) }
    {
        self.0 == 0
    }

    /// Whether the set holds each privilege that the other holds.
    pub fn contains_all(self, other: Static) -> bool
        ensures { IsTrue result ↔ ((q : ℕ) → is_missing other self q ≡ false) }
    {
        self.0 & other.0 == other.0
    }

    /// The first privilege of the set, in order.
    pub fn first(self) -> Option<Plain>
        ensures below { IfSome result (λ p. p < 31) }
        ensures held { IfSome result (λ p. IsTrue (holds self p)) }
        ensures first { IfSome result (λ p. (q : ℕ) → q < p → holds self q ≡ false) }
        ensures none { IsNone result ↔ ((q : ℕ) → q < 31 → holds self q ≡ false) }
    {
        for number in 0..31 {
            let privilege = Plain::new(number);
            if self.has(privilege) {
                return Some(privilege);
            }
        }
        None
    }

    /// The first privilege, in order, that is wanted and not held.
    pub fn first_missing(wanted: Static, held: Static) -> Option<Plain>
        ensures below { IfSome result (λ p. p < 31) }
        ensures missing { IfSome result (λ p. IsTrue (is_missing wanted held p)) }
        ensures first { IfSome result (λ p. (q : ℕ) → q < p → is_missing wanted held q ≡ false) }
        ensures none { IsNone result ↔ ((q : ℕ) → q < 31 → is_missing wanted held q ≡ false) }
    {
        wanted.difference(held).first()
    }

    /// The privileges of the set, in order.
    pub fn privileges(self) -> StaticIter
        ensures { left result ≡ members self }
    {
        StaticIter { rest: self }
    }
}
