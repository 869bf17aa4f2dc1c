ghost use Rattle.std.specs.Prelude.{◌≡◌, ◌<◌, None};
ghost use Rattle.std.proofs.Props.{props};
ghost use Rattle.book_turn.specs.Sitting.{IsIdle, OwnsOne, OwnsNone, makes};

use crate::logged::Logged;
use crate::view::View;
use acl_names::Caller;
use atomic_table::Seat;

/// A caller's seat at a turn: the right to make its calls, and what it has seen of the history.
/// It is the caller's alone, and may go to another thread.
#[derive(Drop)]
pub struct Seated<S, I, O> {
    pub(crate) seat: Seat<S, View<I, O>>,
    pub(crate) caller: u32,
    pub(crate) made: u32,
    // Of the caller with the number 0: how many callers there are.
    pub(crate) callers: u32,
    ghost idle: { IsIdle seat.me },
    ghost owns: { OwnsOne seat.me.0 caller made },
    ghost drawn: { seat.me.0.drawn ≡ makes caller callers } by { Prim.hlevel props },
    ghost first: { caller ≡ 0 → 0 < callers },
}

/// A copy of what a seat has seen, to be told to others.
#[derive(Drop)]
pub struct Noted<S, I, O> {
    pub(crate) seat: Seat<S, View<I, O>>,
    ghost idle: { IsIdle seat.me },
    ghost owns: { OwnsNone seat.me.0 },
    ghost drawn: { seat.me.0.drawn ≡ None } by { Prim.hlevel props },
}

pub type CallerSeat<B> = Seated<Option<B>, <B as Logged>::Item, <B as Logged>::Origin>;

pub type Note<B> = Noted<Option<B>, <B as Logged>::Item, <B as Logged>::Origin>;

impl<S, I, O> Seated<S, I, O> {
    /// The caller, by its number.
    pub fn caller(&self) -> Caller
        ensures { result.0 ≡ self.now.caller }
    {
        Caller(self.caller)
    }

    /// How many of the caller's calls are in the log.
    pub fn made(&self) -> u32
        ensures { result ≡ self.now.made }
    {
        self.made
    }

    pub(crate) fn into_place(self) -> Seat<S, View<I, O>>
        ensures { result ≡ self.seat }
    {
        let Seated {
            seat,
            caller: _,
            made: _,
            callers: _,
        } = self;
        seat
    }
}
