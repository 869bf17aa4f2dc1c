//! What follows from the definitions, for every run. Each function does nothing when it runs: its contract is the law.
ghost use Rattle.std.specs.Prelude.{◌≡◌, ◌≤◌, ◌∷◌, ◌++◌, [], ℕ, true, List, Some, length, take};
ghost use Rattle.acl_stmt.specs.declared.entry.Entry.{Entry};
ghost use Rattle.acl_stmt.specs.declared.refusal.Missing.{Missing};
ghost use Rattle.acl_stmt.specs.declared.statement.Statement.{Statement};
ghost use Rattle.book_log.specs.Items.{Item};
ghost use Rattle.legal_runs.specs.Commands.{Answer, Command};
ghost use Rattle.legal_runs.specs.Commands.Answer.{Done};
ghost use Rattle.legal_runs.specs.Commands.Command.{Issue};
ghost use Rattle.legal_runs.specs.Core.{Event, IsRun, Turn, history_of, known, published, session_after, worker_of};
ghost use Rattle.legal_runs.specs.ExampleReports.{ann_and_bob, ann_once, answered_later, call_lost, called_twice, check_behind, checked_after, now_falls, number_left_out, role_set, used_twice};
ghost use Rattle.legal_runs.specs.ExampleRuns.{from_start};
ghost use Rattle.legal_runs.specs.Lines.{IsWhole};
ghost use Rattle.legal_runs.specs.Report.{AreLegal, IsLegalReport, IsLegalSession, IsWholeRun, LineAnswer, call_count, calls_of, report_of, told_of};
ghost use Rattle.legal_runs.specs.Rules.{Setting};
ghost use Rattle.legal_runs.specs.Sessions.{Part, Session, Views, calls_in};
ghost use Rattle.priv_map.specs.declared.held.Held.{Held};

/// The law that each run in which the lines of all sessions are whole has a legal report.
pub fn runs_are_legal()
    ensures { (on : Setting) (script : List (List Command)) (events : List Event) → IsWholeRun on script events →
        IsLegalReport on script (report_of on script events) }
{}

/// The law that what a session knows is published, never falls, and stays the same front of the one history whatever comes
/// later; and that it knows all that it has read.
pub fn sessions_know_fronts()
    ensures published { (on : Setting) (session : ℕ) (events : List Event) → IsRun on events →
        (known on session events ≤ published on events) × (published on events ≤ length (history_of on events)) }
    ensures front { (on : Setting) (session : ℕ) (later events : List Event) → IsRun on events →
        take (known on session events) (history_of on (later ++ events)) ≡ take (known on session events) (history_of on events) }
    ensures onward { (on : Setting) (session : ℕ) (events : List Event) (event : Event) → IsRun on (event ∷ events) →
        known on session events ≤ known on session (event ∷ events) }
    ensures read { (on : Setting) (session : ℕ) (events : List Event) → IsRun on events →
        ((session_after (worker_of on session events).turns).global ≤ known on session events)
        × ((session_after (worker_of on session events).turns).schema ≤ known on session events) }
{}

/// The law that a session goes onward through legal lines, never beyond the final history, and is never behind what it was told.
pub fn legal_sessions_go_onward()
    ensures onward { (on : Setting) (entries : List Entry) (turn : Turn) (turns : List Turn) → AreLegal on entries (turn ∷ turns) →
        ((session_after turns).now ≤ (session_after (turn ∷ turns)).now)
        × ((session_after (turn ∷ turns)).now ≤ length entries) }
    ensures told { (on : Setting) (entries : List Entry) (later : List Turn) (turn : Turn) (turns : List Turn) (told : ℕ) →
        AreLegal on entries (later ++ turn ∷ turns) → told_of turn.command (calls_in turn.parts) turn.answer ≡ Some told →
        told ≤ (session_after (later ++ turn ∷ turns)).now }
{}

/// The law that a line makes just the calls of its command: one for a login and one for a statement of a connected session,
/// unless it found no memory, and none for any other line; and that a legal session has just the calls of its lines.
pub fn lines_call_once()
    ensures line { (on : Setting) (at : Views) (session : Session) (command : Command) (parts : List Part) (answer : Answer) →
        IsWhole on at session command parts answer → length (calls_in parts) ≡ call_count command answer }
    ensures session { (on : Setting) (entries : List Entry) (items : List Item) (commands : List Command) (answers : List LineAnswer) →
        IsLegalSession on entries items commands answers → length items ≡ calls_of commands answers }
{}

/// The law that of two answers of a legal session in a row the later one knows as much as the earlier one, and all that the
/// earlier one told of; and that no answer knows more than the final history.
pub fn answers_go_onward()
    ensures onward { (on : Setting) (entries : List Entry) (items : List Item) (commands : List Command) (before : List LineAnswer)
        (one other : LineAnswer) → IsLegalSession on entries items commands (before ++ one ∷ other ∷ []) →
        (one.now ≤ other.now) × (other.now ≤ length entries) }
    ensures told { (on : Setting) (entries : List Entry) (items : List Item) (earlier : List Command) (statement : Statement)
        (command : Command) (before : List LineAnswer) (one other : LineAnswer) (position : ℕ) →
        IsLegalSession on entries items (earlier ++ Issue statement ∷ command ∷ []) (before ++ one ∷ other ∷ []) →
        one.answer ≡ Done position true → position ≤ other.now }
{}

/// The law that the worked examples of wrong reports are not legal: a call twice, a call lost, a number left out, a session that
/// comes to know less, a check behind what its session was told, and an answer by a later state.
pub fn wrong_reports_are_not_legal()
    ensures twice { (held : Held) → IsLegalReport from_start ann_once (called_twice held) → ⊥ }
    ensures lost { (held : Held) → IsLegalReport from_start ann_once (call_lost held) → ⊥ }
    ensures gap { (held : Held) → IsLegalReport from_start ann_and_bob (number_left_out held) → ⊥ }
    ensures falls { (held : Held) → IsLegalReport from_start used_twice (now_falls held) → ⊥ }
    ensures behind { (held : Held) (missing : Missing) → IsLegalReport from_start checked_after (check_behind held missing) → ⊥ }
    ensures later { (held : Held) → IsLegalReport from_start role_set (answered_later held) → ⊥ }
{}
