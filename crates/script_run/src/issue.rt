//! Statements that are issued.
ghost use Rattle.std.specs.Prelude.{◌≡◌, ◌+◌, ◌<◌, ◌^◌, [], length, IfOk, IsTrue};
ghost use Rattle.acl_apply.specs.Built.{is_built};
ghost use Rattle.acl_model.specs.State.{root};
ghost use Rattle.acl_names.specs.AuthId.{same_auth};
ghost use Rattle.acl_stmt.specs.Entries.{is_entry};
ghost use Rattle.map_publish.specs.History.{entries_of};
ghost use Rattle.legal_runs.specs.Commands.Command.{Issue};
ghost use Rattle.script_run.specs.Denials.{is_want};
ghost use Rattle.script_run.specs.Forms.{is_built_statement};
ghost use Rattle.script_run.specs.Lines.{IsEntryOf};
ghost use Rattle.script_run.specs.Seats.{IsSound, Steps, Tries};
ghost use Rattle.session_rules.specs.Answers.{denial_on_all};
ghost use Rattle.session_rules.specs.Setting.{no_right};

use crate::seat::Seat;
use acl_items::Items;
use acl_names::{AuthId, Caller};
use acl_stmt::{Entry, Missing, Refusal, Statement, Target, Why};
use line_answers::{Answer, Denial, LineRefusal};
use map_publish::Published;
use priv_sets::{Plain, Privilege};
use std::alloc::{AllocError, Global};

// The number of CREATE USER.
const CREATE_USER: u8 = 24;

/// A statement of the session with this number.
pub(crate) fn issue(
    alloc: Global,
    published: &mut Published,
    seat: &mut Seat,
    caller: u32,
    statement: &Statement,
) -> Answer
    requires built { IsTrue (is_built statement.now) }
    requires form { IsTrue (is_built_statement statement.now) }
    requires rules { IsTrue (is_entry [] statement.now) }
    requires calls { seat.old.calls + 1 < 2 ^ 32 }
    requires room { length (entries_of published.old) + 1 < 2 ^ 32 }
    requires sound { IsSound seat.old (entries_of published.old) }
    ensures { Steps (entries_of published.old) (entries_of published.new) caller seat.old seat.new
        (Issue statement.now) result }
{
    match &seat.state {
        None => Answer::Refused(LineRefusal::NotConnected),
        Some(state) => {
            if !is_root(&state.acting().account) {
                seat.calls += 1;
                return Answer::Refused(LineRefusal::Denied(no_right()));
            }
            match entry_of(
                alloc,
                caller,
                seat.calls,
                &state.acting().account,
                statement,
            ) {
                Ok(entry) => run(alloc, published, seat, entry),
                Err(_) => Answer::Refused(LineRefusal::NoMemory),
            }
        }
    }
}

// A statement that root issues.
fn run(alloc: Global, published: &mut Published, seat: &mut Seat, entry: Entry) -> Answer
    requires built { IsTrue (is_built entry.statement) }
    requires calls { seat.old.calls + 1 < 2 ^ 32 }
    requires room { length (entries_of published.old) + 1 < 2 ^ 32 }
    ensures { Tries (entries_of published.old) (entries_of published.new) seat.old seat.new entry result }
{
    match published.prepare(alloc, entry) {
        Ok(next) => {
            published.commit(next);
            seat.calls += 1;
            seat.seen = published.length();
            Answer::Done {
                position: seat.seen,
            }
        }
        Err(refusal) => {
            if is_want(&refusal) {
                return Answer::Refused(LineRefusal::NoMemory);
            }
            seat.calls += 1;
            Answer::Refused(LineRefusal::Statement(refusal))
        }
    }
}

fn is_want(refusal: &Refusal) -> bool
    ensures { result ≡ is_want refusal.now }
{
    matches!(refusal, Refusal::NoMemory)
}

fn is_root(account: &AuthId) -> bool
    ensures { result ≡ same_auth account.now root }
{
    account.user.as_str() == "root" && account.host.as_str() == "localhost"
}

// What a session lacks that is not root's.
fn no_right() -> Denial
    ensures { result ≡ denial_on_all no_right }
{
    Denial {
        missing: Missing {
            privilege: Privilege::Plain(Plain::new(CREATE_USER)),
            on_target: false,
            column: None,
            why: Why::NoGrant,
        },
        target: Target::Global,
        column: None,
    }
}

fn entry_of(
    alloc: Global,
    caller: u32,
    number: u32,
    account: &AuthId,
    statement: &Statement,
) -> Result<Entry, AllocError>
    requires { IsTrue (is_entry [] statement.now) }
    ensures { IfOk result (IsEntryOf caller number account.now statement.now) }
{
    let by = account.copy(alloc)?;
    let statement = statement.copy(alloc)?;
    Ok(Entry {
        caller: Caller(caller),
        number,
        by,
        limits: Items::new(alloc),
        statement,
    })
}
