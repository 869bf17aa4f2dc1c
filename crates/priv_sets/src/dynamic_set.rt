//! Sets of dynamic privileges with their grant options.
ghost use Rattle.std.specs.Prelude.{◌≡◌, ℕ, ◌==◌, ◌||◌, ◌&&◌, ◌<◌, ◌^◌, ◌↔◌, false, not, IsTrue, IsNone, IsSome, IfSome, nat_lt};
ghost use Rattle.std.specs.Int.RustNames.{bit_and};

use crate::{DynIter, Dynamic};

/// A set of dynamic privileges: bit i stands for the privilege of number i.
#[derive(Clone, Copy, Debug, PartialEq, Eq, Hash)]
pub struct DynSet {
    /// The privileges.
    pub held: u32,
    /// Those that are held with their grant option.
    pub grantable: u32,
    pub ghost below: { held < 2 ^ 20 },
    pub ghost inside: { bit_and grantable held ≡ grantable },
}

impl DynSet {
    ghost use Rattle.priv_sets.specs.DynamicIter.{dynamic_left};
    ghost use Rattle.priv_sets.specs.DynamicSet.{dynamic_members, holds_dynamic, grants_dynamic, is_missing_dynamic};

    /// The set that holds no privilege.
    pub fn none() -> DynSet
        ensures held { (q : ℕ) → holds_dynamic result q ≡ false }
        ensures grantable { (q : ℕ) → grants_dynamic result q ≡ false }
    {
        DynSet {
            held: 0,
            grantable: 0,
        }
    }

    /// Every dynamic privilege, with its grant option.
    pub fn all() -> DynSet
        ensures held { (q : ℕ) → holds_dynamic result q ≡ nat_lt q 20 }
        ensures grantable { (q : ℕ) → grants_dynamic result q ≡ nat_lt q 20 }
    {
        DynSet {
            held: ALL,
            grantable: ALL,
        }
    }

    /// The set of two numbers, where each bit stands for a privilege and the second has bits of the
    /// first alone.
    pub fn from_bits(held: u32, grantable: u32) -> Option<DynSet>
        ensures value { IfSome result (λ set. (set.held ≡ held) × (set.grantable ≡ grantable)) }
        ensures within { IsSome result ↔ ((held < 2 ^ 20) × (bit_and grantable held ≡ grantable)) }
    {
        if held <= ALL && grantable & held == grantable {
            Some(DynSet { held, grantable })
        } else {
            None
        }
    }

    /// The set with a privilege, and with its grant option where that is given. One that was held
    /// keeps its grant option.
    #[must_use]
    pub fn with(self, privilege: Dynamic, grantable: bool) -> DynSet
        ensures held { (q : ℕ) → holds_dynamic result q ≡ (q == privilege || holds_dynamic self q) }
        ensures grantable { (q : ℕ) → grants_dynamic result q ≡
            ((grantable && q == privilege) || grants_dynamic self q) }
    {
        let bit = 1 << privilege.number();
        if grantable {
            return DynSet {
                held: self.held | bit,
                grantable: self.grantable | bit,
            };
        }
        DynSet {
            held: self.held | bit,
            grantable: self.grantable,
        }
    }

    /// The set without a privilege and its grant option.
    #[must_use]
    pub fn without(self, privilege: Dynamic) -> DynSet
        ensures held { (q : ℕ) → holds_dynamic result q ≡
            (not (q == privilege) && holds_dynamic self q) }
        ensures grantable { (q : ℕ) → grants_dynamic result q ≡
            (not (q == privilege) && grants_dynamic self q) }
    {
        let others = !(1 << privilege.number());
        DynSet {
            held: self.held & others,
            grantable: self.grantable & others,
        }
    }

    /// The same privileges without any grant option.
    #[must_use]
    pub fn without_grant_options(self) -> DynSet
        ensures held { (q : ℕ) → holds_dynamic result q ≡ holds_dynamic self q }
        ensures grantable { (q : ℕ) → grants_dynamic result q ≡ false }
    {
        DynSet {
            held: self.held,
            grantable: 0,
        }
    }

    /// What either set holds.
    #[must_use]
    pub fn union(self, other: DynSet) -> DynSet
        ensures held { (q : ℕ) → holds_dynamic result q ≡
            (holds_dynamic self q || holds_dynamic other q) }
        ensures grantable { (q : ℕ) → grants_dynamic result q ≡
            (grants_dynamic self q || grants_dynamic other q) }
    {
        DynSet {
            held: self.held | other.held,
            grantable: self.grantable | other.grantable,
        }
    }

    /// Whether the set holds a privilege.
    pub fn has(self, privilege: Dynamic) -> bool
        ensures { result ≡ holds_dynamic self privilege }
    {
        self.held >> privilege.number() & 1 == 1
    }

    /// Whether the set holds a privilege with its grant option.
    pub fn can_grant(self, privilege: Dynamic) -> bool
        ensures { result ≡ grants_dynamic self privilege }
    {
        self.grantable >> privilege.number() & 1 == 1
    }

    /// Whether the set holds no privilege.
    pub fn is_empty(self) -> bool
        ensures { IsTrue result ↔ ((q : ℕ) → holds_dynamic self q ≡ false) }
    {
        self.held == 0
    }

    /// The first privilege of the set, in order.
    pub fn first(self) -> Option<Dynamic>
        ensures below { IfSome result (λ p. p < 20) }
        ensures held { IfSome result (λ p. IsTrue (holds_dynamic self p)) }
        ensures first { IfSome result (λ p. (q : ℕ) → q < p → holds_dynamic self q ≡ false) }
        ensures none { IsNone result ↔ ((q : ℕ) → q < 20 → holds_dynamic self q ≡ false) }
    {
        for number in 0..20 {
            let privilege = Dynamic::new(number);
            if self.has(privilege) {
                return Some(privilege);
            }
        }
        None
    }

    /// The privileges of the set, in order.
    pub fn privileges(self) -> DynIter
        ensures { dynamic_left result ≡ dynamic_members self }
    {
        DynIter { rest: self }
    }

    /// The first privilege, in order, that is wanted and not held, or wanted with its grant option and
    /// held without.
    pub fn first_missing(wanted: DynSet, held: DynSet) -> Option<Dynamic>
        ensures below { IfSome result (λ p. p < 20) }
        ensures missing { IfSome result (λ p. IsTrue (is_missing_dynamic wanted held p)) }
        ensures first { IfSome result (λ p. (q : ℕ) → q < p →
            is_missing_dynamic wanted held q ≡ false) }
        ensures none { IsNone result ↔ ((q : ℕ) → q < 20 →
            is_missing_dynamic wanted held q ≡ false) }
    {
        for number in 0..20 {
            let privilege = Dynamic::new(number);
            if (wanted.has(privilege) && !held.has(privilege))
                || (wanted.can_grant(privilege) && !held.can_grant(privilege))
            {
                return Some(privilege);
            }
        }
        None
    }
}

// The bits of every dynamic privilege.
const ALL: u32 = (1 << 20) - 1;
