//! The sessions of a run, and the answers to what changes no row.
ghost use Rattle.std.specs.Prelude.{◌≡◌, ◌+◌, ◌<◌, ◌^◌, [], None, Some, length, IfOk, IsTrue, OnErr, OnOk};
ghost use Rattle.map_publish.specs.History.{entries_of};
ghost use Rattle.acl_model.specs.Verdict.{verdict_of};
ghost use Rattle.book_log.specs.Items.{Knock};
ghost use Rattle.legal_runs.specs.Commands.Command.{Check, Connect, Disconnect, UseSchema};
ghost use Rattle.legal_runs.specs.Sessions.{fresh};
ghost use Rattle.line_answers.specs.declared.answer.Answer.TheVariants.{Connected};
ghost use Rattle.script_run.specs.Denials.{verdict_told};
ghost use Rattle.script_run.specs.Forms.{has_no_password};
ghost use Rattle.script_run.specs.Lines.{IsOpen, state_now};
ghost use Rattle.script_run.specs.Seats.{IsEntered, IsSeated, IsSound, OnlyAnswers, session_in};
ghost use Rattle.session_check.specs.Session.{StandsFor, UsesSchema, readings_after};

use crate::denial::denial_of;
use crate::login::{Entered, log_in};
use acl_names::{Ident, UserName};
use acl_stmt::Request;
use line_answers::{Answer, LineRefusal, LoginRefusal, Points};
use map_publish::Published;
use priv_map::Verdict;
use session_check::SessionState;
use std::alloc::{AllocError, Global};

/// What is stored of a session.
#[derive(Drop)]
pub(crate) struct Seat {
    /// Its connection, if it has one.
    pub(crate) state: Option<SessionState>,
    /// What it read last, while it was connected.
    pub(crate) points: Points,
    /// How many accepted statements it has seen.
    pub(crate) seen: u32,
    /// How many of its logins and statements were answered.
    pub(crate) calls: u32,
}

impl Seat {
    /// A session before its first line.
    pub(crate) fn new() -> Seat
        ensures session { session_in result ≡ fresh }
        ensures state { result.state ≡ None }
        ensures calls { result.calls ≡ 0 }
    {
        Seat {
            state: None,
            points: Points {
                global: 0,
                schema: 0,
            },
            seen: 0,
            calls: 0,
        }
    }

    /// CONNECT of a local client. Whatever the login answers, the session's former connection ends.
    pub(crate) fn connect(
        &mut self,
        alloc: Global,
        published: &Published,
        user: &UserName,
    ) -> Answer
        requires room { self.old.calls + 1 < 2 ^ 32 }
        requires sound { IsSound self.old (entries_of published.now) }
        requires opened { IsOpen (state_now (entries_of published.now)) }
        ensures { (knock : Knock) → knock.user ≡ user.now → IsTrue (has_no_password knock.verifier) →
            OnlyAnswers (entries_of published.now) self.old self.new (Connect knock) result }
    {
        self.state = None;
        match log_in(alloc, published, user) {
            Ok(Some(entered)) => self.enter(published, entered),
            Ok(None) => {
                self.calls += 1;
                Answer::Refused(LineRefusal::Login(LoginRefusal::NoAccount))
            }
            Err(_) => Answer::Refused(LineRefusal::NoMemory),
        }
    }

    fn enter(&mut self, published: &Published, entered: Entered) -> Answer
        requires room { self.old.calls + 1 < 2 ^ 32 }
        requires entered { IsEntered (entries_of published.now) entered }
        ensures answer { result ≡ Connected entered.shown }
        ensures seat { IsSeated (entries_of published.now) entered self.old self.new }
    {
        let Entered { shown, state } = entered;
        self.points = state.points();
        self.state = Some(state);
        self.seen = published.length();
        self.calls += 1;
        Answer::Connected(shown)
    }

    /// DISCONNECT.
    pub(crate) fn disconnect(&mut self, published: &Published) -> Answer
        requires sound { IsSound self.old (entries_of published.now) }
        ensures { OnlyAnswers (entries_of published.now) self.old self.new Disconnect result }
    {
        match &self.state {
            None => Answer::Refused(LineRefusal::NotConnected),
            Some(_) => {
                self.state = None;
                Answer::Bye
            }
        }
    }

    /// USE.
    pub(crate) fn use_schema(
        &mut self,
        alloc: Global,
        published: &Published,
        schema: &Ident,
    ) -> Answer
        requires sound { IsSound self.old (entries_of published.now) }
        ensures { OnlyAnswers (entries_of published.now) self.old self.new (UseSchema schema.now) result }
    {
        match &mut self.state {
            None => Answer::Refused(LineRefusal::NotConnected),
            Some(state) => match choose_schema(alloc, published, state, schema) {
                Ok(name) => {
                    self.points = state.points();
                    self.seen = published.length();
                    Answer::Schema(name)
                }
                Err(_) => Answer::Refused(LineRefusal::NoMemory),
            },
        }
    }

    /// CHECK.
    pub(crate) fn check(
        &mut self,
        alloc: Global,
        published: &Published,
        request: &Request,
    ) -> Answer
        requires sound { IsSound self.old (entries_of published.now) }
        ensures { OnlyAnswers (entries_of published.now) self.old self.new
            (Check request.now.privileges request.now.target) result }
    {
        match &self.state {
            None => Answer::Refused(LineRefusal::NotConnected),
            Some(state) => match verdict_of(alloc, published, state, request) {
                Ok(answer) => {
                    self.seen = published.length();
                    answer
                }
                Err(_) => Answer::Refused(LineRefusal::NoMemory),
            },
        }
    }
}

fn choose_schema(
    alloc: Global,
    published: &Published,
    state: &mut SessionState,
    schema: &Ident,
) -> Result<Ident, AllocError>
    ensures name { IfOk result (λ name. name ≡ schema.now) }
    ensures used { OnOk result
        (UsesSchema state.old state.new schema.now (length (entries_of published.now))) }
    ensures read { OnOk result (StandsFor state.old (entries_of published.now) →
        StandsFor state.new (entries_of published.now)) }
    ensures err { OnErr result (state.new ≡ state.old) }
{
    let name = schema.copy(alloc)?;
    state.use_schema(alloc, published, schema)?;
    Ok(name)
}

fn verdict_of(
    alloc: Global,
    published: &Published,
    state: &SessionState,
    request: &Request,
) -> Result<Answer, AllocError>
    requires { StandsFor state.now (entries_of published.now) }
    ensures { IfOk result (λ answer. answer ≡ verdict_told request.now.privileges request.now.target
        (verdict_of (readings_after state.now (entries_of published.now))
        request.now.privileges request.now.target)) }
{
    match state.check(published, request) {
        Verdict::Allowed => Ok(Answer::Allowed),
        Verdict::Denied(missing) => Ok(Answer::Denied(denial_of(alloc, request, missing)?)),
    }
}
