//! What lies in the two copies, and their rule.
ghost use Rattle.std.specs.Prelude.{◌≡◌, List, length};
ghost use Rattle.published_copies.specs.declared.stage.Stage.{Stage};
ghost use Rattle.published_copies.specs.declared.copies.Content.{Content};
ghost use Rattle.published_copies.specs.declared.copies.Operation.{Operation};
ghost use Rattle.published_copies.specs.Contents.{applied};

use crate::history::Mark;
use crate::stage::Stage;
use atomic_table::{Join, Split};
use crossbeam_utils::rule::{Outcome, Protocol};
use left_right::Absorb;
use std::alloc::Global;
use std::marker::PhantomData;

/// What both copies have in common: the list for which they stand, and the publication that they are.
/// Contracts alone see it, and no value of it is made.
pub struct Content<E> {
    pub stage: Stage<E>,
    pub mark: Mark<E>,
}

/// What is done to both copies. All that was done since the publication before ends in the mark of the next one.
#[derive(Drop)]
pub enum Operation<E> {
    Added(E),
    Ended,
    Marked(Mark<E>),
}

/// One of the two copies: a value that stands for a list of entries, and the mark of the publication that it is.
/// What else the value keeps of its entries is said by its own type.
pub trait PublishedCopy<E: Drop>: Absorb<Operation<E>, State = Content<E>> + Drop {
    /// What is read.
    type Value: Drop;

    ghost shown: { Self → Self.Value };

    // The entries for which the value stands, the oldest first, and whether none comes any more.
    ghost stage: { Self.Value → Stage E };

    // Which entry may come next. Whoever hands it over promises this.
    ghost may_follow: { List E → E → Type 0 };

    fn over(alloc: Global, read: Self::Value, mark: Mark<E>) -> Self
        ensures { Self.state result ≡ record { stage = stage read; mark = mark } };

    fn value(&self) -> &Self::Value
        ensures { result.now ≡ shown self.now };

    fn mark(&self) -> &Mark<E>
        ensures { result.now ≡ (Self.state self.now).mark };

    /// The number of entries.
    fn length_of(read: &Self::Value) -> u32
        ensures { result ≡ length (stage read.now).entries };

    ghost stands: { (x : Self) → (Self.state x).stage ≡ stage (shown x) };

    ghost applies: { (content : Content E) (operation : Operation E) → Self.applied content operation ≡ applied content operation };
}

/// What is shown stands at the end of its mark, and all that was seen is of one publisher.
/// What a seat knows is the value that it saw last.
pub struct Copies<E> {
    entry: PhantomData<E>,
}

impl<S: PublishedCopy<E>, E: Drop> Protocol<S, Option<S>> for Copies<E> {
    ghost use Rattle.std.specs.Prelude.{None};
    ghost use Rattle.published_copies.specs.Copies.{IsShared};

    ghost holds = { IsShared S.state };

    ghost first = { None };
}

/// A read or a publication: the value is seen, and its mark is told with it.
pub struct Sees<E> {
    entry: PhantomData<E>,
}

impl<S: PublishedCopy<E>, E: Drop> Outcome<S, Option<S>> for Sees<E> {
    ghost use Rattle.published_copies.specs.Copies.{Saw};

    ghost then = { λ before _ now after. Saw S.state before now after };
}

/// A copy of what is known.
pub struct Twice;

impl<V> Split<V> for Twice {
    ghost left = { λ v. v };

    ghost right = { λ v. v };
}

/// What the other knows is taken over.
pub struct Takes;

impl<V> Join<Option<V>> for Takes {
    ghost use Rattle.std.specs.Prelude.{None};

    ghost both = { λ _ other. other };

    ghost spent = { None };
}
