use crate::bits::{with_bit, without_bit};

/// What a privilege on `*.*` is.
#[derive(Clone, Copy, Debug, PartialEq, Eq)]
pub enum GlobalKind {
    /// A static privilege.
    Static,
    /// A dynamic privilege.
    Dynamic,
    /// The right to grant a dynamic privilege.
    Grantable,
}

/// What an account holds on `*.*`, the bit of a privilege's number for each.
#[derive(Clone, Copy, Debug, PartialEq, Eq)]
pub struct GlobalBits {
    /// The static privileges.
    pub fixed: u32,
    /// The dynamic privileges.
    pub dynamic: u32,
    /// The dynamic privileges that the account may grant.
    pub grantable: u32,
}

impl GlobalBits {
    ghost use Rattle.std.specs.Prelude.{◌≡◌, ◌<◌, ◌==◌, ◌&&◌, ◌||◌, ℕ, not};
    ghost use Rattle.account_holdings.specs.Bits.{has_bit as is_in};
    ghost use Rattle.account_holdings.specs.Globals.{bits_of_kind, no_globals, same_kind};
    ghost use Rattle.account_holdings.specs.declared.globals.GlobalKind.{GlobalKind as GlobalKindValue};

    /// Nothing held.
    pub fn none() -> GlobalBits
        ensures { result ≡ no_globals }
    {
        GlobalBits {
            fixed: 0,
            dynamic: 0,
            grantable: 0,
        }
    }

    /// The bits of one kind.
    pub fn of_kind(&self, kind: GlobalKind) -> u32
        ensures { result ≡ bits_of_kind kind self.now }
    {
        match kind {
            GlobalKind::Static => self.fixed,
            GlobalKind::Dynamic => self.dynamic,
            GlobalKind::Grantable => self.grantable,
        }
    }

    // With a privilege more.
    pub(crate) fn with(&self, kind: GlobalKind, privilege: u8) -> GlobalBits
        requires { privilege < 32 }
        ensures { (other : GlobalKindValue) (q : ℕ) → is_in (bits_of_kind other result) q ≡
            (is_in (bits_of_kind other self.now) q || (same_kind other kind && q == privilege)) }
    {
        match kind {
            GlobalKind::Static => GlobalBits {
                fixed: with_bit(self.fixed, privilege),
                ..*self
            },
            GlobalKind::Dynamic => GlobalBits {
                dynamic: with_bit(self.dynamic, privilege),
                ..*self
            },
            GlobalKind::Grantable => GlobalBits {
                grantable: with_bit(self.grantable, privilege),
                ..*self
            },
        }
    }

    // With a privilege less.
    pub(crate) fn without(&self, kind: GlobalKind, privilege: u8) -> GlobalBits
        ensures { (other : GlobalKindValue) (q : ℕ) → is_in (bits_of_kind other result) q ≡
            (is_in (bits_of_kind other self.now) q && not (same_kind other kind && q == privilege)) }
    {
        match kind {
            GlobalKind::Static => GlobalBits {
                fixed: without_bit(self.fixed, privilege),
                ..*self
            },
            GlobalKind::Dynamic => GlobalBits {
                dynamic: without_bit(self.dynamic, privilege),
                ..*self
            },
            GlobalKind::Grantable => GlobalBits {
                grantable: without_bit(self.grantable, privilege),
                ..*self
            },
        }
    }
}
