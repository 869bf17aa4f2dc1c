//! What a publisher holds: the writer of the two copies, and the history of what it published.
ghost use Rattle.std.specs.Prelude.{◌≡◌, ◌<◌, ◌++◌, ◌∷◌, [], false, drop, vec_len, All, IfOk, MatchResult, OnOk};
ghost use Rattle.left_right.specs.Sides.{view};
ghost use Rattle.published_copies.specs.Stages.{with_entry, with_end};
ghost use Rattle.published_copies.specs.Copies.{KnowsBook, IsTied, book_of};
ghost use Rattle.published_copies.specs.Views.{content_after, handed, IsReady, IsStanding};

use crate::copies::{Copies, Operation, PublishedCopy, Sees, Takes, Twice};
use crate::front::Front;
use crate::history::{Law, Mark};
use crate::stage::Stage;
use crate::view::View;
use left_right::writer::Writer;
use logbook::{Plain, Word};
use std::alloc::{AllocError, Global};
use std::marker::{Model, PhantomData};
use std::sync::Wait;

pub(crate) type Pair<S, E> = Writer<S, Operation<E>, Option<S>, Copies<E>>;

/// There was no memory for what was asked, of which nothing was done.
#[derive(Drop)]
pub struct Missed {
    made: (),
}

impl Missed {
    pub(crate) fn new() -> Missed {
        Missed { made: () }
    }
}

/// What a publication asks the history for: all that was handed over.
struct Whole;

impl<S: PublishedCopy<E>, E: Drop> Plain<Pair<S, E>, Stage<E>, u64> for Whole {
    ghost use Rattle.std.specs.Prelude.{drop, None};
    ghost use Rattle.published_copies.specs.Views.{handed};

    ghost ask = { λ w. handed S.state w.desk.shown.value (drop w.behind w.log.items) };

    ghost state = { λ _. None };
}

/// What the first publication asks the history for: what the publisher begins with.
struct Begins<S, E> {
    of: PhantomData<(S, E)>,
}

impl<S: PublishedCopy<E>, E: Drop> Plain<S::Value, Stage<E>, u64> for Begins<S, E> {
    ghost use Rattle.std.specs.Prelude.{None};

    ghost ask = { λ p. S.stage p };

    ghost state = { λ _. None };
}

/// The word counts the publications, and the mark has all of them.
pub(crate) struct State<S: PublishedCopy<E>, E: Drop> {
    pub(crate) writer: Pair<S, E>,
    pub(crate) head: Word<Stage<E>, u64, Law>,
    pub(crate) mark: Mark<E>,
}

impl<S: PublishedCopy<E>, E: Drop> Model for State<S, E> {
    ghost use Rattle.published_copies.specs.Views.{Standing};

    ghost Value = { Standing E };

    ghost use Rattle.std.specs.Prelude.{drop};
    ghost use Rattle.left_right.specs.Sides.{view as seat_view};
    ghost use Rattle.published_copies.specs.Stages.{last_of};
    ghost use Rattle.published_copies.specs.Views.{handed, IsStanding};

    ghost view = { λ p. record { book = p.mark.seen.book; published = last_of (S.state p.writer.desk.shown.value).mark.seen.log; handed = handed S.state p.writer.desk.shown.value (drop p.writer.behind p.writer.log.items) } };

    ghost invariant = { λ p. IsStanding S.state p.writer.desk.shown.value (drop p.writer.behind p.writer.log.items) (seat_view p.writer.desk.place) p.head p.mark };
}

// What was done to neither copy yet has one operation more.
fn hand_over<S: PublishedCopy<E>, E: Drop>(
    writer: &mut Pair<S, E>,
    operation: Operation<E>,
) -> Result<(), Missed>
    ensures desk { writer.new.desk ≡ writer.old.desk }
    ensures pending { MatchResult result
        (λ _. drop writer.new.behind writer.new.log.items ≡ drop writer.old.behind writer.old.log.items ++ operation ∷ [])
        (λ _. drop writer.new.behind writer.new.log.items ≡ drop writer.old.behind writer.old.log.items) }
{
    match writer.append(operation) {
        Ok(()) => Ok(()),
        Err(_) => Err(Missed::new()),
    }
}

// Shows all that is pending, which ends with its mark. It waits for those that read the other copy.
pub(crate) fn show<S: PublishedCopy<E>, E: Drop, R: Wait>(
    writer: Pair<S, E>,
    rt: &R,
) -> (Pair<S, E>, Result<(), Missed>)
    requires { IsReady S.state writer.desk.shown.value (drop writer.behind writer.log.items) }
    ensures { MatchResult result.1
        (λ _. (S.state result.0.desk.shown.value ≡ content_after S.state writer.desk.shown.value (drop writer.behind writer.log.items))
        × (drop result.0.behind result.0.log.items ≡ [])
        × KnowsBook S.state (view result.0.desk.place) (book_of S.state result.0.desk.shown.value))
        (λ _. (result.0.desk.shown.value ≡ writer.desk.shown.value)
        × (drop result.0.behind result.0.log.items ≡ drop writer.behind writer.log.items)
        × (view result.0.desk.place ≡ view writer.desk.place)) }
{
    let (writer, shown) = writer.publish_as::<Sees<E>, R>(rt);
    match shown {
        Ok(()) => (writer, Ok(())),
        Err(_) => (writer, Err(Missed::new())),
    }
}

// Adds all that was handed over to the history, and then its mark to what is pending.
fn set_mark<S: PublishedCopy<E>, E: Drop>(
    writer: &mut Pair<S, E>,
    head: &Word<Stage<E>, u64, Law>,
    mark: &mut Mark<E>,
) -> Result<(), Missed>
    requires { IsStanding S.state writer.old.desk.shown.value (drop writer.old.behind writer.old.log.items) (view writer.old.desk.place) head.now mark.old }
    ensures standing { IsStanding S.state writer.new.desk.shown.value (drop writer.new.behind writer.new.log.items) (view writer.new.desk.place) head.now mark.new }
    ensures book { mark.new.seen.book ≡ mark.old.seen.book }
    ensures desk { writer.new.desk ≡ writer.old.desk }
    ensures handed { handed S.state writer.new.desk.shown.value (drop writer.new.behind writer.new.log.items)
        ≡ handed S.state writer.old.desk.shown.value (drop writer.old.behind writer.old.log.items) }
    ensures ready { OnOk result (IsReady S.state writer.new.desk.shown.value (drop writer.new.behind writer.new.log.items)) }
{
    let Some(next) = mark.add::<Pair<S, E>, Whole>(head, writer) else {
        return Err(Missed::new());
    };
    *mark = next.again();
    hand_over(writer, Operation::Marked(next))
}

// The writer of two copies that stand alike, one of which is shown.
fn written<S: PublishedCopy<E>, E: Drop, R: Wait>(
    rt: &R,
    alloc: Global,
    first: S,
    second: S,
    views: u32,
) -> Result<Pair<S, E>, AllocError>
    requires views { 0 < views }
    requires alike { S.state first ≡ S.state second }
    requires tied { IsTied S.state first }
    ensures { IfOk result (λ w. (S.state w.desk.shown.value ≡ S.state first) × (drop w.behind w.log.items ≡ [])
        × KnowsBook S.state (view w.desk.place) (book_of S.state first)) }
{
    let writer = Writer::new(alloc, first, second, views as usize)?;
    let (writer, shown) = show(writer, rt);
    match shown {
        Ok(()) => Ok(writer),
        Err(_) => {
            writer.take(rt);
            Err(AllocError)
        }
    }
}

impl<S: PublishedCopy<E>, E: Drop> State<S, E> {
    // Two values that stand for the same list are what is published first.
    pub(crate) fn new<R: Wait>(
        rt: &R,
        alloc: Global,
        first: S::Value,
        second: S::Value,
        views: u32,
    ) -> Result<State<S, E>, AllocError>
        requires views { 0 < views }
        requires alike { S.stage first ≡ S.stage second }
        ensures { IfOk result (λ s. (s.published ≡ S.stage first) × (s.handed ≡ S.stage first)) }
    {
        let (head, none) = Mark::first();
        let Some(mark) = none.add::<S::Value, Begins<S, E>>(&head, &first) else {
            return Err(AllocError);
        };
        let first = S::over(alloc, first, mark.again());
        let second = S::over(alloc, second, mark.again());
        match written(rt, alloc, first, second, views) {
            Ok(writer) => Ok(State { writer, head, mark }),
            Err(refused) => Err(refused),
        }
    }

    // A view that has heard nothing, and knows the publisher.
    fn view(&mut self) -> Result<View<S, E>, AllocError>
        ensures same { self.new ≡ self.old }
        ensures made { IfOk result (λ v. v ≡ record { book = self.old.book; heard = [] }) }
    {
        let mut reader = self.writer.factory().reader()?;
        reader.learn::<Takes>(self.writer.tell::<Twice>());
        Ok(View::over(reader, &self.mark))
    }

    pub(crate) fn views(&mut self, alloc: Global, count: u32) -> Result<Vec<View<S, E>>, AllocError>
        ensures same { self.new ≡ self.old }
        ensures made { IfOk result (λ all. (vec_len all ≡ count) × All (λ v. v ≡ record { book = self.old.book; heard = [] }) all.items) }
    {
        let mut all = Vec::new(alloc);
        for _ in 0..count {
            let view = self.view()?;
            all.push(view)?;
        }
        Ok(all)
    }

    pub(crate) fn append(&mut self, entry: E) -> Result<(), Missed>
        requires { self.old.handed.ended ≡ false }
        ensures kept { (self.new.book ≡ self.old.book) × (self.new.published ≡ self.old.published) × (self.new.handed.ended ≡ false) }
        ensures handed { MatchResult result (λ _. self.new.handed ≡ with_entry self.old.handed entry) (λ _. self.new.handed ≡ self.old.handed) }
    {
        hand_over(&mut self.writer, Operation::Added(entry))
    }

    pub(crate) fn append_end(&mut self) -> Result<(), Missed>
        requires { self.old.handed.ended ≡ false }
        ensures kept { (self.new.book ≡ self.old.book) × (self.new.published ≡ self.old.published) }
        ensures handed { MatchResult result (λ _. self.new.handed ≡ with_end self.old.handed) (λ _. self.new.handed ≡ self.old.handed) }
    {
        hand_over(&mut self.writer, Operation::Ended)
    }

    // Publishes all that was handed over, at once.
    pub(crate) fn publish<R: Wait>(self, rt: &R) -> (State<S, E>, Result<(), Missed>)
        ensures kept { (result.0.book ≡ self.book) × (result.0.handed ≡ self.handed) }
        ensures published { MatchResult result.1 (λ _. result.0.published ≡ self.handed) (λ _. result.0.published ≡ self.published) }
    {
        let State {
            mut writer,
            head,
            mut mark,
        } = self;
        match set_mark(&mut writer, &head, &mut mark) {
            Ok(()) => {
                let (writer, shown) = show(writer, rt);
                (State { writer, head, mark }, shown)
            }
            Err(missed) => (State { writer, head, mark }, Err(missed)),
        }
    }

    pub(crate) fn front(&self) -> Front<E>
        ensures { result ≡ record { book = self.now.book; stage = self.now.published } }
    {
        Front::at(self.writer.published().mark().again())
    }

    pub(crate) fn take<R: Wait>(self, rt: &R) {
        let State {
            writer,
            head: _head,
            mark: _mark,
        } = self;
        writer.take(rt);
    }
}
