//! The publisher: what is handed over to it, and what it shows.
ghost use Rattle.std.specs.Prelude.{◌≡◌, ◌<◌, [], false, vec_len, All, IfOk, MatchResult};
ghost use Rattle.published_copies.specs.Stages.{with_entry, with_end};

use crate::copies::PublishedCopy;
use crate::front::Front;
use crate::state::{Missed, State};
use crate::view::View;
use acl_items::Copied;
use std::alloc::{AllocError, Global};
use std::marker::Model;
use std::mem;
use std::sync::Wait;

/// Changes what is published. It cannot be dropped, and ends in `take`.
pub struct Publisher<S: PublishedCopy<E>, E: Drop> {
    // It is away in a publication alone.
    state: Option<State<S, E>>,
}

impl<S: PublishedCopy<E>, E: Drop> Model for Publisher<S, E> {
    ghost use Rattle.std.specs.Prelude.{IsSome};
    ghost use Rattle.published_copies.specs.Views.{Standing, standing_in};

    ghost Value = { Standing E };

    ghost view = { λ p. standing_in p.state };

    ghost invariant = { λ p. IsSome p.state };
}

impl<S: PublishedCopy<E>, E: Drop> Publisher<S, E> {
    /// Publishes two values that stand for the same list, and makes its views. It waits where a view is refused.
    pub fn new<R: Wait>(
        rt: &R,
        alloc: Global,
        first: S::Value,
        second: S::Value,
        views: u32,
    ) -> Result<(Publisher<S, E>, Vec<View<S, E>>), AllocError>
        requires views { 0 < views }
        requires alike { S.stage first ≡ S.stage second }
        ensures published { IfOk result (λ made. (made.0.published ≡ S.stage first) × (made.0.handed ≡ S.stage first)) }
        ensures views { IfOk result (λ made. (vec_len made.1 ≡ views) × All (λ v. v ≡ record { book = made.0.book; heard = [] }) made.1.items) }
    {
        let mut state = State::new(rt, alloc, first, second, views)?;
        match state.views(alloc, views) {
            Ok(made) => Ok((Publisher { state: Some(state) }, made)),
            Err(refused) => {
                state.take(rt);
                Err(refused)
            }
        }
    }

    /// Hands over a copy of an entry. Nobody reads it before it is published.
    pub fn append(&mut self, alloc: Global, entry: &E) -> Result<(), Missed>
    where
        E: Copied,
        requires open { self.old.handed.ended ≡ false }
        requires follows { S.may_follow self.old.handed.entries entry.now }
        ensures kept { (self.new.book ≡ self.old.book) × (self.new.published ≡ self.old.published) × (self.new.handed.ended ≡ false) }
        ensures handed { MatchResult result (λ _. self.new.handed ≡ with_entry self.old.handed entry.now) (λ _. self.new.handed ≡ self.old.handed) }
    {
        let Ok(own) = entry.copied(alloc) else {
            return Err(Missed::new());
        };
        let Some(state) = &mut self.state else {
            unreachable!()
        };
        state.append(own)
    }

    /// Hands over that no further entry comes.
    pub fn append_end(&mut self) -> Result<(), Missed>
        requires { self.old.handed.ended ≡ false }
        ensures kept { (self.new.book ≡ self.old.book) × (self.new.published ≡ self.old.published) }
        ensures handed { MatchResult result (λ _. self.new.handed ≡ with_end self.old.handed) (λ _. self.new.handed ≡ self.old.handed) }
    {
        let Some(state) = &mut self.state else {
            unreachable!()
        };
        state.append_end()
    }

    /// Publishes all that was handed over, at once, or nothing. It waits for those that read the copy that it changes.
    pub fn publish<R: Wait>(&mut self, rt: &R) -> Result<(), Missed>
        ensures kept { (self.new.book ≡ self.old.book) × (self.new.handed ≡ self.old.handed) }
        ensures published { MatchResult result (λ _. self.new.published ≡ self.old.handed) (λ _. self.new.published ≡ self.old.published) }
    {
        let Some(state) = self.state.take() else {
            unreachable!()
        };
        let (state, shown) = state.publish(rt);
        let before = mem::replace(&mut self.state, Some(state));
        let None = before else { unreachable!() };
        shown
    }

    /// A token that stands for what is published now.
    pub fn tell(&mut self) -> Front<E>
        ensures same { self.new ≡ self.old }
        ensures front { result ≡ record { book = self.old.book; stage = self.old.published } }
    {
        let Some(state) = &self.state else {
            unreachable!()
        };
        state.front()
    }

    /// Ends the publisher. It waits for those that read. From then on each view answers `NoEntry`.
    pub fn take<R: Wait>(self, rt: &R) {
        let Publisher { state } = self;
        let Some(state) = state else { unreachable!() };
        state.take(rt);
    }
}
