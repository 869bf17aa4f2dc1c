//! Where a list of tokens is refused.

ghost use Rattle.std.specs.Prelude.{◌≡◌};
ghost use Rattle.acl_grammar.specs.declared.refusal.Refusal.{Refusal};

use std::alloc::{AllocError, AllocFailed};

/// The tokens from one on that is not of the class that is wanted there; none where the list ended.
#[derive(Drop)]
pub struct Unexpected<'a, T> {
    pub rest: &'a [T],
}

/// Why no value was read.
#[derive(Drop)]
pub enum Refusal<'a, T> {
    /// Want of memory.
    NoMemory,
    /// What is left of the tokens from the first one that does not fit.
    At(&'a [T]),
}

impl<'a, T> From<Unexpected<'a, T>> for Refusal<'a, T> {
    ghost from_gives = { λ unexpected refusal. refusal ≡ Refusal.At unexpected.rest };

    fn from(unexpected: Unexpected<'a, T>) -> Refusal<'a, T> {
        Refusal::At(unexpected.rest)
    }
}

impl<'a, T> From<AllocError> for Refusal<'a, T> {
    ghost from_gives = { λ _ refusal. refusal ≡ Refusal.NoMemory };

    fn from(_error: AllocError) -> Refusal<'a, T> {
        Refusal::NoMemory
    }
}

impl<'a, T, V: Drop> From<AllocFailed<V>> for Refusal<'a, T> {
    ghost from_gives = { λ _ refusal. refusal ≡ Refusal.NoMemory };

    fn from(_failed: AllocFailed<V>) -> Refusal<'a, T> {
        Refusal::NoMemory
    }
}
