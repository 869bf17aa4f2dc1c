use acl_items::Copied;
use std::alloc::{AllocError, Global};
use std::marker::Model;

/// The number of an account that is a default role.
#[derive(Clone, Copy, Debug, PartialEq, Eq, Hash)]
pub struct RoleNumber(pub u32);

impl Model for RoleNumber {
    ghost use Rattle.std.specs.Prelude.{ℕ};

    ghost Value = { ℕ };

    ghost view = { λ role. role.0 };

    ghost inverse = { λ number. record { 0 = number } };
}

impl Copied for RoleNumber {
    fn copied(&self, _alloc: Global) -> Result<RoleNumber, AllocError> {
        Ok(*self)
    }
}
