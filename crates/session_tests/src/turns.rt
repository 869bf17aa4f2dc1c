//! A small book over a device, and workers that call it from threads of their own.
ghost use Rattle.std.specs.Prelude.{◌≡◌, ℕ, ◌+◌, ◌<◌, ◌≤◌, All, length, slice_index_or};
ghost use Rattle.book_turn.specs.Callers.{turn_of, IsSameCaller};

use acl_names::Caller;
use book_turn::{Logged, Seated, Turn};
use std::alloc::{AllocError, Global};
use std::sync::Wait;
use std::test::Fail;
use std::thread;
use std::thread::Threads;

const CALLS: u32 = 51;

trait Device: Drop {
    fn add(&mut self, number: u64) -> u64;
}

#[derive(Drop)]
struct Sum(u64);

impl Device for Sum {
    fn add(&mut self, number: u64) -> u64 {
        self.0 = self.0.wrapping_add(number);
        self.0
    }
}

#[derive(Clone, Copy)]
struct Entry {
    caller: u32,
    number: u32,
    call: u64,
    reply: u64,
}

/// It sums up numbers, and keeps what it was asked and what it answered.
#[derive(Drop)]
struct Account<D> {
    device: D,
    log: Vec<Entry>,
}

impl<D: Device> Logged for Account<D> {
    type Item = Entry;

    type Call = u64;

    type Reply = u64;

    type Origin = ();

    ghost log = { λ a. a.log.items };

    ghost origin = { λ _. tt };

    ghost caller_of = { λ entry. entry.caller };

    ghost number_of = { λ entry. entry.number };

    ghost call_of = { λ entry. entry.call };

    ghost stands = { λ _ entry reply. reply ≡ entry.reply };

    fn apply<R: Wait>(
        &mut self,
        _rt: &R,
        _alloc: Global,
        caller: Caller,
        number: u32,
        call: u64,
    ) -> Result<u64, AllocError> {
        if self.log.len() >= 1 << 32 {
            return Err(AllocError);
        }
        self.log.reserve(1)?;
        let reply = self.device.add(call);
        self.log.push_reserved(Entry {
            caller: caller.0,
            number,
            call,
            reply,
        });
        Ok(reply)
    }
}

type AccountSeat<D> = Seated<Option<Account<D>>, Entry, ()>;

#[derive(Drop)]
struct Worker<D> {
    seat: AccountSeat<D>,
}

fn work<D: Device, R: Wait>(rt: &R, alloc: Global, turn: &Turn<Account<D>>, worker: &mut Worker<D>)
    requires { (turn_of worker.old.seat ≡ turn.now.table.shared.table_id) × (worker.old.seat.made ≡ 0) }
    ensures { IsSameCaller worker.old.seat worker.new.seat × (worker.new.seat.callers ≡ worker.old.seat.callers) }
{
    for call in 0..CALLS {
        if turn
            .with(rt, alloc, &mut worker.seat, u64::from(call))
            .is_err()
        {
            return;
        }
    }
}

// A thread for each worker, over any device.
fn work_all<D: Device + Send, R: Threads + Wait + Sync>(
    rt: &R,
    alloc: Global,
    turn: &Turn<Account<D>>,
    workers: &mut [Worker<D>],
)
    requires { All (λ w. (turn_of w.seat ≡ turn.now.table.shared.table_id) × (w.seat.made ≡ 0)) workers.old }
    ensures len { length workers.new ≡ length workers.old }
    ensures each { (k : ℕ) (d : _) → k < length workers.old → IsSameCaller (slice_index_or workers.old k d).seat (slice_index_or workers.new k d).seat × ((slice_index_or workers.new k d).seat.callers ≡ (slice_index_or workers.old k d).seat.callers) }
{
    thread::for_each_mut(
        rt,
        workers,
        8,
        &|_, worker: &mut Worker<D>|
            requires { (turn_of worker.old.seat ≡ turn.now.table.shared.table_id) × (worker.old.seat.made ≡ 0) }
            ensures { IsSameCaller worker.old.seat worker.new.seat × (worker.new.seat.callers ≡ worker.old.seat.callers) }
        { work(rt, alloc, turn, worker) },
    );
}

fn close_two<D: Device>(
    alloc: Global,
    turn: Turn<Account<D>>,
    first: AccountSeat<D>,
    second: AccountSeat<D>,
) -> Result<Account<D>, AllocError>
    requires turn { (turn_of first ≡ turn.table.shared.table_id) × (turn_of second ≡ turn.table.shared.table_id) }
    requires callers { (first.caller ≡ 0) × (first.callers ≡ 2) × (second.caller ≡ 1) }
{
    Ok(turn.close(vec![in alloc; first, second]?))
}

#[test]
fn two_callers_make_their_calls_once_and_in_order(rt: HostRuntime) -> Result<(), Fail> {
    let alloc = rt.alloc();
    let account = Account {
        device: Sum(0),
        log: Vec::new(alloc),
    };
    let Ok((turn, mut first)) = Turn::new(alloc, account) else {
        panic!(rt; "no memory")
    };
    let second = turn.new_seat(&mut first);
    let mut workers = [Worker { seat: first }, Worker { seat: second }];
    work_all(&rt, alloc, &turn, &mut workers);
    let [one, two] = workers;
    let account = close_two(alloc, turn, one.seat, two.seat)?;
    assert_eq!(rt; account.log.len(), 102);
    let wanted: Vec<u32> = (0..CALLS).collect(alloc)?;
    for caller in 0..2u32 {
        let numbers: Vec<u32> = account
            .log
            .iter()
            .filter(|entry| entry.caller == caller)
            .map(|entry| entry.number)
            .collect(alloc)?;
        assert_eq!(rt; numbers.as_slice(), wanted.as_slice(), "of caller {caller}");
    }
    Ok(())
}

#[test]
fn a_seat_that_learnt_of_a_call_sees_it(rt: HostRuntime) -> Result<(), Fail> {
    let alloc = rt.alloc();
    let account = Account {
        device: Sum(0),
        log: Vec::new(alloc),
    };
    let Ok((turn, mut first)) = Turn::new(alloc, account) else {
        panic!(rt; "no memory")
    };
    assert_eq!(rt; turn.look(&mut first), 0);
    let mut second = turn.new_seat(&mut first);
    assert_eq!(rt; turn.with(&rt, alloc, &mut first, 7)?, 7);
    let note = turn.note(&mut first);
    turn.learn(&mut second, note);
    assert!(rt; turn.look(&mut second) >= 1);
    let made = [
        (first.caller(), first.made()),
        (second.caller(), second.made()),
    ];
    assert_eq!(rt; made, [(Caller(0), 1), (Caller(1), 0)]);
    Ok(())
}
