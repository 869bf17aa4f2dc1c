//! The lines of a script, one after the other.
ghost use Rattle.std.specs.Prelude.{◌≡◌, ◌+◌, ◌<◌, ◌^◌, length, IfOk, IsTrue};
ghost use Rattle.std.specs.List.{All};
ghost use Rattle.map_publish.specs.History.{entries_of};
ghost use Rattle.script_run.specs.Calls.{command_of};
ghost use Rattle.script_run.specs.Forms.{is_built, keeps_rules};
ghost use Rattle.script_run.specs.Lines.{IsOpen, state_now};
ghost use Rattle.script_run.specs.Seats.{IsFresh, IsSound, Steps};
ghost use Rattle.script_run.specs.Told.{IsRun, told_by};

use crate::issue::issue;
use crate::seat::Seat;
use line_answers::{Answer, LineAnswer};
use map_publish::Published;
use script_read::{Command, Line};
use std::alloc::{AllocError, Global};

/// What the lines of a script were answered.
#[derive(Drop)]
pub struct Run {
    /// The answers in the order of the lines, each beside the place of its session.
    pub answers: Vec<(u32, LineAnswer)>,
    /// How many statements were accepted.
    pub accepted: u32,
}

/// Runs the lines in their order, each on what the lines before it left. Want of memory within a line is its answer.
pub fn run_lines(alloc: Global, sessions: usize, lines: &[Line]) -> Result<Run, AllocError>
    requires sessions { All (λ line. line.session < sessions) lines.now }
    requires count { length lines.now < 2 ^ 32 }
    requires built { All (λ line. IsTrue (is_built line.command)) lines.now }
    requires rules { All (λ line. IsTrue (keeps_rules line.command)) lines.now }
    ensures run { IfOk result (λ run. IsRun lines.now run.answers.items run.accepted) }
    ensures seated { IfOk result (λ run. All (λ answer. answer.0 < sessions) run.answers.items) }
{
    let mut published = Published::opening(alloc)?;
    let mut seats = empty_seats(alloc, sessions)?;
    let mut answers = Vec::with_capacity(alloc, lines.len())?;
    for line in lines {
        let seat = &mut seats[line.session as usize];
        let answer = answer(alloc, &mut published, seat, line.session, &line.command);
        answers.push(told_by(line.session, line.number, answer, seat))?;
    }
    Ok(Run {
        answers,
        accepted: published.length(),
    })
}

// The answer to a command of the session with this number.
fn answer(
    alloc: Global,
    published: &mut Published,
    seat: &mut Seat,
    session: u32,
    command: &Command,
) -> Answer
    requires built { IsTrue (is_built command.now) }
    requires rules { IsTrue (keeps_rules command.now) }
    requires calls { seat.old.calls + 1 < 2 ^ 32 }
    requires room { length (entries_of published.old) + 1 < 2 ^ 32 }
    requires sound { IsSound seat.old (entries_of published.old) }
    requires opened { IsOpen (state_now (entries_of published.old)) }
    ensures { Steps (entries_of published.old) (entries_of published.new) session seat.old seat.new
        (command_of command.now) result }
{
    match command {
        Command::Connect { user, .. } => seat.connect(alloc, published, user),
        Command::Disconnect => seat.disconnect(published),
        Command::UseSchema(schema) => seat.use_schema(alloc, published, schema),
        Command::Check(request) => seat.check(alloc, published, request),
        Command::Statement(statement) => issue(alloc, published, seat, session, statement),
        _ => unreachable!(),
    }
}

fn told_by(session: u32, line: u32, answer: Answer, seat: &Seat) -> (u32, LineAnswer)
    ensures { result ≡ told_by session line answer seat.now }
{
    let answered = LineAnswer {
        line,
        answer,
        points: seat.points,
        now: seat.seen,
    };
    (session, answered)
}

fn empty_seats(alloc: Global, count: usize) -> Result<Vec<Seat>, AllocError>
    ensures count { IfOk result (λ seats. length seats.items ≡ count) }
    ensures each { IfOk result (λ seats. All IsFresh seats.items) }
{
    let mut seats = Vec::with_capacity(alloc, count)?;
    for _seat in 0..count {
        seats.push(Seat::new())?;
    }
    Ok(seats)
}
