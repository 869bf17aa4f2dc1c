//! Views, which read what is published.
ghost use Rattle.std.specs.Prelude.{◌≡◌, ◌≤◌, [], ◌∷◌, true, false, Some, MatchResult};
ghost use Rattle.std.specs.Fn.{FnOnceReturnsAt};
ghost use Rattle.logbook.specs.Pages.{Book};
ghost use Rattle.left_right.specs.Sides.{view};
ghost use Rattle.published_copies.specs.Stages.{last_of};
ghost use Rattle.published_copies.specs.Copies.{IsTied, KnowsBook, book_of};
ghost use Rattle.published_copies.specs.Views.{AllBefore, Answered, KnowsStill, read_of};

use crate::copies::{Copies, PublishedCopy, Sees};
use crate::front::Front;
use crate::heard::Heard;
use crate::history::Mark;
use left_right::reader::{Reader, Reading};
use std::marker::Model;

pub(crate) type Place<S, E> = Reader<S, Option<S>, Copies<E>>;

type Open<S, E> = Reading<S, Option<S>, Copies<E>>;

/// The view was given no value in this call, or one that it could not show to go on from what it knows.
#[derive(Drop)]
pub struct NoEntry {
    made: (),
}

/// Reads what is published. It takes no memory and waits for nobody, and may go to another thread.
#[derive(Drop)]
pub struct View<S: PublishedCopy<E>, E: Drop> {
    // It is away in a read alone.
    reader: Option<Place<S, E>>,
    known: Mark<E>,
    heard: Heard<E>,
}

impl<S: PublishedCopy<E>, E: Drop> Model for View<S, E> {
    ghost use Rattle.published_copies.specs.Views.{Watch};

    ghost Value = { Watch E };

    ghost use Rattle.std.specs.Prelude.{IsSomeAnd};
    ghost use Rattle.left_right.specs.Sides.{view as seat_view};
    ghost use Rattle.published_copies.specs.Stages.{last_of};
    ghost use Rattle.published_copies.specs.Copies.{KnowsBook};
    ghost use Rattle.published_copies.specs.Views.{AllBefore};

    ghost view = { λ v. record { book = v.known.seen.book; heard = v.heard.kept.log } };

    ghost invariant = { λ v. IsSomeAnd v.reader (λ r. KnowsBook S.state (seat_view r.place) v.known.seen.book) × AllBefore v.heard.kept.log (last_of v.known.seen.log) };
}

// Takes the value that is published. The reader comes back where it has fewer publications than are known.
fn entered<S: PublishedCopy<E>, E: Drop>(
    reader: Place<S, E>,
    turn: u64,
) -> Result<Open<S, E>, Place<S, E>>
    ensures { MatchResult result
        (λ r. (view r.place ≡ Some r.part.value) × IsTied S.state r.part.value × (turn ≤ (S.state r.part.value).mark.turn)
        × ((b : Book) → KnowsBook S.state (view reader.place) b → book_of S.state r.part.value ≡ b))
        (λ r. KnowsStill S.state (view reader.place) (view r.place)) }
{
    match reader.enter_as::<Sees<E>>() {
        Ok(reading) if turn <= reading.get().mark().turn => Ok(reading),
        Ok(reading) => Err(reading.leave()),
        Err(reader) => Err(reader),
    }
}

fn ask<S: PublishedCopy<E>, E: Drop, T, F: FnOnce(&S::Value) -> T + Drop>(
    reader: Place<S, E>,
    turn: u64,
    f: F,
) -> (Place<S, E>, Result<(T, Mark<E>), NoEntry>)
    requires { F.IsAlwaysCallable f }
    ensures { MatchResult result.1
        (λ r. Answered S.state (λ y answer. FnOnceReturnsAt F.FnOnce f (S.shown y) answer) turn (view reader.place) (view result.0.place) r.0 r.1)
        (λ _. KnowsStill S.state (view reader.place) (view result.0.place)) }
{
    match entered(reader, turn) {
        Ok(reading) => {
            let shown = reading.get();
            let mark = shown.mark().again();
            let answer = f(shown.value());
            (reading.leave(), Ok((answer, mark)))
        }
        Err(reader) => (reader, Err(NoEntry { made: () })),
    }
}

// The publication at this mark was read.
fn note_read<E>(known: &mut Mark<E>, heard: &mut Heard<E>, mark: Mark<E>)
    requires book { mark.seen.book ≡ known.old.seen.book }
    requires late { known.old.turn ≤ mark.turn }
    requires before { AllBefore heard.old.kept.log (last_of known.old.seen.log) }
    ensures known { known.new ≡ mark }
    ensures heard { heard.new.kept.log ≡ read_of (last_of mark.seen.log) ∷ heard.old.kept.log }
    ensures on { AllBefore heard.old.kept.log (last_of mark.seen.log) }
{
    let mut both = known.seen.again();
    both.learn(&mark.seen);
    *heard = heard.read(&mark);
    *known = mark;
}

impl<S: PublishedCopy<E>, E: Drop> View<S, E> {
    // The view behind a reader that knows the publisher of the mark.
    pub(crate) fn over(reader: Place<S, E>, mark: &Mark<E>) -> View<S, E>
        requires { KnowsBook S.state (view reader.place) mark.now.seen.book }
        ensures { (result.book ≡ mark.now.seen.book) × (result.heard ≡ []) }
    {
        View {
            reader: Some(reader),
            known: mark.again(),
            heard: Heard::nothing(),
        }
    }

    /// From now on no read shows less than the front stands for.
    pub fn learn(&mut self, front: Front<E>)
        requires { front.book ≡ self.old.book }
        ensures { self.new ≡ record { book = self.old.book; heard = record { stage = front.stage; told = true } ∷ self.old.heard } }
    {
        let mark = front.into_mark();
        self.heard = self.heard.told(&mark);
        self.known = self.known.later(&mark);
    }

    /// Reads what is published by `f`, which is not called where there is no value. It takes no memory and waits for nobody.
    pub fn read<T, F: FnOnce(&S::Value) -> T + Drop>(&mut self, f: F) -> Result<T, NoEntry>
        requires { F.IsAlwaysCallable f }
        ensures book { self.new.book ≡ self.old.book }
        ensures read { MatchResult result
            (λ answer. (p : S.Value) × FnOnceReturnsAt F.FnOnce f p answer × AllBefore self.old.heard (S.stage p)
            × (self.new.heard ≡ read_of (S.stage p) ∷ self.old.heard))
            (λ _. self.new ≡ self.old) }
    {
        let Some(reader) = self.reader.take() else {
            unreachable!()
        };
        let (reader, answer) = ask(reader, self.known.turn, f);
        self.reader = Some(reader);
        match answer {
            Ok((answer, mark)) => {
                note_read(&mut self.known, &mut self.heard, mark);
                Ok(answer)
            }
            Err(none) => Err(none),
        }
    }
}
