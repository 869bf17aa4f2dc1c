//! The turn: a table of two words and one slot.
ghost use Rattle.std.specs.Prelude.{◌≡◌, ◌≢◌, ℕ, ◌+◌, ◌^◌, ◌<◌, ◌≤◌, ◌⊎◌, true, false, List, [], ◌∷◌, ◌++◌, length, Some, None, IfOk, IfErr, OnOk, OnErr, All, max};
ghost use Rattle.book_turn.specs.Lists.{Begins, Has, by_caller};
ghost use Rattle.book_turn.specs.Views.{counting, giving, newest};
ghost use Rattle.book_turn.specs.Steps.{IsReady, Taken, Merged, HandsEmpty};
ghost use Rattle.book_turn.specs.Callers.{turn_of, seen, known, mine, origin, IsSameCaller, HasSameCalls, SawTheSame, Logs, note_turn, noted, note_known, callers_of, HasAllCallers};
ghost use Rattle.book_turn.specs.Gathering.{Gathered};

use crate::logged::Logged;
use crate::rule::{Both, Copied, Count, Give, Look, Number, OneHistory, Recall, Take};
use crate::seat::{CallerSeat, Note, Noted, Seated};
use crate::view::View;
use acl_names::Caller;
use atomic_table::{Seat, Table};
use std::alloc::{AllocError, Global};
use std::sync::Wait;
use std::thread;

type Place<B> = Seat<Option<B>, View<<B as Logged>::Item, <B as Logged>::Origin>>;

/// A book, and whose turn it is. Threads share it by reference, and each call waits for its turn.
/// It cannot be dropped where its book cannot, and ends in `close`.
#[derive(Drop)]
pub struct Turn<B: Logged> {
    table: Table<Option<B>, View<B::Item, B::Origin>, (), OneHistory, Global>,
    ghost sized: { (table.shared.table_id.words ≡ 2) × (table.shared.table_id.slots ≡ 1) },
}

impl<B: Logged> Turn<B> {
    // Takes the turn once it is free.
    fn take<R: Wait>(&self, rt: &R, seat: &mut Place<B>)
        requires turn { seat.old.table_id ≡ self.now.table.shared.table_id }
        requires ready { IsReady seat.old.me.0 × (seat.old.me.1 ≡ []) }
        ensures same { (seat.new.table_id ≡ seat.old.table_id) × (seat.new.id ≡ seat.old.id) }
        ensures taken { Taken B.log B.origin B.caller_of seat.old.me seat.new.me }
    {
        for _ in rt.forever() {
            if self.table.shared.compare_exchange::<Take>(seat, 0, 0, 1) == 0 {
                return;
            }
            thread::yield_now();
        }
        unreachable!()
    }

    // The first seat finds the turn free.
    fn take_first(&self, seat: &mut Place<B>)
        requires turn { seat.old.table_id ≡ self.now.table.shared.table_id }
        requires first { seat.old.me ≡ (newest, []) }
        ensures same { (seat.new.table_id ≡ seat.old.table_id) × (seat.new.id ≡ seat.old.id) }
        ensures taken { Taken B.log B.origin B.caller_of seat.old.me seat.new.me }
    {
        self.table.shared.compare_exchange::<Take>(seat, 0, 0, 1);
    }

    fn take_out(&self, seat: &mut Place<B>) -> B
        requires turn { seat.old.table_id ≡ self.now.table.shared.table_id }
        requires book { (book : B) × (seat.old.me.1 ≡ (0, Some book) ∷ []) }
        ensures same { (seat.new.table_id ≡ seat.old.table_id) × (seat.new.id ≡ seat.old.id) }
        ensures book { (seat.old.me.1 ≡ (0, Some result) ∷ []) × (seat.new.me ≡ (seat.old.me.0, (0, None) ∷ [])) }
    {
        let Some(book) = self.table.shared.exchange(seat, 0, None) else {
            unreachable!()
        };
        book
    }

    fn put_in(&self, seat: &mut Place<B>, book: B)
        requires turn { seat.old.table_id ≡ self.now.table.shared.table_id }
        requires empty { HandsEmpty seat.old.me }
        ensures same { (seat.new.table_id ≡ seat.old.table_id) × (seat.new.id ≡ seat.old.id) }
        ensures book { seat.new.me ≡ (seat.old.me.0, (0, Some book) ∷ []) }
    {
        let before = self.table.shared.exchange(seat, 0, Some(book));
        let None = before else { unreachable!() };
    }

    // Puts the book back, to which nothing was added, and gives up the turn.
    fn give(&self, seat: &mut Place<B>, book: B)
        requires turn { seat.old.table_id ≡ self.now.table.shared.table_id }
        requires empty { HandsEmpty seat.old.me × (seat.old.me.0.turn ≡ true) }
        requires log { B.log book ≡ seat.old.me.0.seen }
        requires origin { (seat.old.me.0.fresh ≡ true) ⊎ (seat.old.me.0.origin ≡ Some (B.origin book)) }
        ensures same { (seat.new.table_id ≡ seat.old.table_id) × (seat.new.id ≡ seat.old.id) }
        ensures given { seat.new.me ≡ (giving (Some (B.origin book)) seat.old.me.0, []) }
    {
        self.put_in(seat, book);
        self.table.shared.store::<Give>(seat, 0, 0);
    }

    // Puts the book back, to which an item of the seat's was added, counts it, and gives up the turn.
    fn give_more(&self, seat: &mut Place<B>, book: B)
        requires turn { seat.old.table_id ≡ self.now.table.shared.table_id }
        requires empty { HandsEmpty seat.old.me × (seat.old.me.0.turn ≡ true) }
        requires log { (item : B.Item) × (own : List B.Item) × (B.log book ≡ seat.old.me.0.seen ++ item ∷ []) × (seat.old.me.0.mine ≡ (B.caller_of item, own) ∷ []) }
        requires bound { length (B.log book) < 2 ^ 63 }
        requires origin { seat.old.me.0.origin ≡ Some (B.origin book) }
        ensures same { (seat.new.table_id ≡ seat.old.table_id) × (seat.new.id ≡ seat.old.id) }
        ensures given { seat.new.me ≡ (giving (Some (B.origin book)) (counting B.caller_of (B.log book) seat.old.me.0), []) }
    {
        self.put_in(seat, book);
        self.table.shared.fetch_add::<Count>(seat, 1, 1);
        self.table.shared.store::<Give>(seat, 0, 0);
    }

    fn join(&self, seat: &mut Place<B>, other: Place<B>)
        requires turn { (seat.old.table_id ≡ self.now.table.shared.table_id) × (other.table_id ≡ self.now.table.shared.table_id) }
        requires idle { (seat.old.me.0.turn ≡ false) × (other.me.0.turn ≡ false) × (other.me.1 ≡ []) }
        ensures same { (seat.new.table_id ≡ seat.old.table_id) × (seat.new.id ≡ seat.old.id) × (seat.new.me.1 ≡ seat.old.me.1) }
        ensures merged { Merged seat.old.me.0 other.me.0 seat.new.me.0 }
    {
        self.table.shared.join_seat::<Both>(seat, other);
        self.table.shared.load::<Recall>(seat, 1);
    }

    // One seat of all of them, which knows what each of them knew.
    fn gather(&self, mut seats: Vec<CallerSeat<B>>) -> Place<B>
        requires turn { All (λ s. turn_of s ≡ self.now.table.shared.table_id) seats.items }
        requires some { 0 < length seats.items }
        ensures turn { result.table_id ≡ self.now.table.shared.table_id }
        ensures gathered { Gathered seats.items result.me }
    {
        let Some(last) = seats.pop() else {
            unreachable!()
        };
        let mut all = last.into_place();
        while let Some(next) = seats.pop() {
            self.join(&mut all, next.into_place());
        }
        all
    }
}

impl<B: Logged> Turn<B> {
    /// A turn round a book whose log is empty, and the seat of the caller with the number 0.
    /// Where there is no memory, the book comes back.
    pub fn new(alloc: Global, book: B) -> Result<(Turn<B>, CallerSeat<B>), (AllocError, B)>
        requires { B.log book ≡ [] }
        ensures turn { IfOk result (λ made. turn_of made.1 ≡ made.0.table.shared.table_id) }
        ensures caller { IfOk result (λ made. (made.1.caller ≡ 0) × (made.1.made ≡ 0) × (made.1.callers ≡ 1)) }
        ensures seen { IfOk result (λ made. (seen made.1 ≡ []) × (mine made.1 ≡ []) × (known made.1 ≡ 0)) }
        ensures origin { IfOk result (λ made. origin made.1 ≡ Some (B.origin book)) }
        ensures err { IfErr result (λ refused. refused.1 ≡ book) }
    {
        let Ok((table, mut seat)) = Table::vacant(alloc, &[0, 0], 1, &()) else {
            return Err((AllocError, book));
        };
        let turn = Turn { table };
        turn.take_first(&mut seat);
        turn.give(&mut seat, book);
        let first = Seated {
            seat,
            caller: 0,
            made: 0,
            callers: 1,
        };
        Ok((turn, first))
    }

    /// The seat of a new caller, which has the next number. Only the caller with the number 0 makes callers.
    pub fn new_seat(&self, from: &mut CallerSeat<B>) -> CallerSeat<B>
        requires turn { turn_of from.old ≡ self.now.table.shared.table_id }
        requires maker { from.old.caller ≡ 0 }
        requires room { from.old.callers < 4294967295 }
        ensures new { (turn_of result ≡ turn_of from.old) × (result.caller ≡ from.old.callers) × (origin result ≡ origin from.old) }
        ensures none { (result.made ≡ 0) × (mine result ≡ []) }
        ensures seen { SawTheSame from.old result }
        ensures callers { from.new.callers ≡ from.old.callers + 1 }
        ensures same { IsSameCaller from.old from.new × HasSameCalls from.old from.new × SawTheSame from.old from.new }
    {
        let seat = self.table.shared.split_seat::<Number>(&mut from.seat);
        let caller = from.callers;
        from.callers += 1;
        Seated {
            seat,
            caller,
            made: 0,
            callers: 0,
        }
    }

    /// Makes a call, once the turn is this seat's. It waits as long as others have the turn.
    pub fn with<R: Wait>(
        &self,
        rt: &R,
        alloc: Global,
        seat: &mut CallerSeat<B>,
        call: B::Call,
    ) -> Result<B::Reply, AllocError>
        requires turn { turn_of seat.old ≡ self.now.table.shared.table_id }
        requires room { seat.old.made < 4294967295 }
        ensures same { IsSameCaller seat.old seat.new × (seat.new.callers ≡ seat.old.callers) × (known seat.new ≡ known seat.old) }
        ensures logged { IfOk result (λ reply. Logs B.caller_of B.number_of B.call_of B.stands call reply seat.old seat.new) }
        ensures made { OnOk result (seat.new.made ≡ seat.old.made + 1) }

        // A call that found no memory is not in the history, and uses no number.
        ensures err { OnErr result (HasSameCalls seat.old seat.new) }
        ensures seen { OnErr result (Begins (seen seat.old) (seen seat.new)) }
        ensures just { OnErr result (mine seat.new ≡ by_caller B.caller_of seat.old.caller (seen seat.new)) }
    {
        let caller = Caller(seat.caller);
        self.take(rt, &mut seat.seat);
        let mut book = self.take_out(&mut seat.seat);
        match book.apply(rt, alloc, caller, seat.made, call) {
            Ok(reply) => {
                self.give_more(&mut seat.seat, book);
                seat.made += 1;
                Ok(reply)
            }
            Err(failed) => {
                self.give(&mut seat.seat, book);
                Err(failed)
            }
        }
    }

    /// A number of calls that the log has by now.
    pub fn look(&self, seat: &mut CallerSeat<B>) -> u64
        requires { turn_of seat.old ≡ self.now.table.shared.table_id }
        ensures known { known seat.new ≡ result }
        ensures grows { (known seat.old ≤ result) × (length (seen seat.old) ≤ result) }
        ensures seen { seen seat.new ≡ seen seat.old }
        ensures same { IsSameCaller seat.old seat.new × HasSameCalls seat.old seat.new × (seat.new.callers ≡ seat.old.callers) }
    {
        self.table.shared.load::<Look>(&mut seat.seat, 1)
    }

    /// A copy of what the seat has seen, which can go to another thread.
    pub fn note(&self, seat: &mut CallerSeat<B>) -> Note<B>
        requires { turn_of seat.old ≡ self.now.table.shared.table_id }
        ensures noted { (note_turn result ≡ turn_of seat.old) × (noted result ≡ seen seat.old) × (note_known result ≡ known seat.old) }
        ensures same { IsSameCaller seat.old seat.new × HasSameCalls seat.old seat.new × SawTheSame seat.old seat.new × (seat.new.callers ≡ seat.old.callers) }
    {
        Noted {
            seat: self.table.shared.split_seat::<Copied>(&mut seat.seat),
        }
    }

    /// Adds what a note has to what the seat has seen.
    pub fn learn(&self, seat: &mut CallerSeat<B>, note: Note<B>)
        requires { (turn_of seat.old ≡ self.now.table.shared.table_id) × (note_turn note ≡ self.now.table.shared.table_id) }
        ensures seen { Begins (seen seat.old) (seen seat.new) × Begins (noted note) (seen seat.new) }
        ensures known { known seat.new ≡ max (known seat.old) (note_known note) }
        ensures same { IsSameCaller seat.old seat.new × HasSameCalls seat.old seat.new × (seat.new.callers ≡ seat.old.callers) }
    {
        let Noted { seat: other } = note;
        self.join(&mut seat.seat, other);
    }

    /// Gives the book, once the seats of all callers have come back. Of each caller its log has just the calls that it made.
    pub fn close(self, seats: Vec<CallerSeat<B>>) -> B
        requires turn { All (λ s. turn_of s ≡ self.table.shared.table_id) seats.items }
        requires all { HasAllCallers seats.items }
        ensures calls { All (λ s. mine s ≡ by_caller B.caller_of s.caller (B.log result)) seats.items }
        ensures others { (caller : ℕ) → callers_of seats.items ≤ caller → by_caller B.caller_of caller (B.log result) ≡ [] }
        ensures seen { All (λ s. Begins (seen s) (B.log result)) seats.items }
        ensures known { All (λ s. known s ≤ length (B.log result)) seats.items }
        ensures origin { All (λ s. origin s ≡ Some (B.origin result)) seats.items }
    {
        let all = self.gather(seats);
        let Turn { table } = self;
        let mut closed = table.close_with(all);
        let slot = closed.take(0);
        closed.free();
        let Some(book) = slot else { unreachable!() };
        book
    }
}
