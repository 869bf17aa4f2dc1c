//! What follows from the definitions, for every log, every base and everything that may stand at first. Each function does
//! nothing when it runs: its contract is the law.
ghost use Rattle.std.specs.Prelude.{◌≡◌, ◌≢◌, ◌≤ℤ◌, ℕ, ℤ, Bool, List, [], ◌∷◌, ◌++◌, length, Option, Some, None, Ok};
ghost use Rattle.std.specs.Option.{ForSome};
ghost use Rattle.acl_model.specs.State.{State};
ghost use Rattle.acl_model.specs.declared.account_data.AccountData.{AccountData};
ghost use Rattle.acl_names.specs.declared.auth.AuthId.{AuthId};
ghost use Rattle.acl_stmt.specs.declared.entry.Entry.{Entry};
ghost use Rattle.acl_stmt.specs.declared.statement.Statement.{Statement};
ghost use Rattle.book_log.specs.Callers.{AreCounted, AreNumberedFrom, calls};
ghost use Rattle.book_log.specs.ExampleLogs.{all_of, from_nothing};
ghost use Rattle.book_log.specs.Histories.{history};
ghost use Rattle.book_log.specs.Items.{Item, Knock, asked};
ghost use Rattle.book_log.specs.Items.Reply.{ToStatement};
ghost use Rattle.book_log.specs.Logins.{IsChosenAccount};
ghost use Rattle.book_log.specs.Logs.{IsLegalLog, IsLegalPast, IsOneMore, IsReply, Origin, state_at, with_end};
ghost use Rattle.book_log.specs.Pasts.{Past, events_of, log_of, moment_of};
ghost use Rattle.book_log.specs.Rules.{Rules};
ghost use Rattle.login_throttle.specs.History.{IsHistory, IsStampOf, blocking_failure};
ghost use Rattle.login_throttle.specs.Tracking.{answer_of};
ghost use Rattle.login_throttle.specs.declared.stamp.Stamp.{Stamp};
ghost use Rattle.priv_map.specs.declared.acting.Acting.{Acting};
ghost use Rattle.priv_map.specs.declared.held.Held.{Held};

/// The law that the front of a legal log is legal, and that each item has the reply that the rules give after those before it.
pub fn fronts_are_legal()
    ensures front { (origin : Origin) (front rest : List Item) → IsLegalLog origin (front ++ rest) → IsLegalLog origin front }
    ensures each { (origin : Origin) (before : List Item) (item : Item) (later : List Item) →
        IsLegalLog origin (before ++ item ∷ later) →
        (past : Past) × (chosen : Option AuthId) × (log_of past ≡ before) × IsLegalPast origin past
        × IsReply origin past (record { item = item; chosen = chosen }) }
{}

/// The law that a legal log that is open stays legal where it ends with its last item.
pub fn legal_logs_may_end()
    ensures { (origin : Origin) (past : Past) → IsLegalPast (with_end None origin) past →
        IsLegalPast (with_end (Some (length past)) origin) past }
{}

/// The law that the history grows by one entry with each statement that is answered Done, and by nothing else.
pub fn history_grows_with_done()
    ensures done { (origin : Origin) (past : Past) (caller number : ℕ) (chosen : Option AuthId) (acting : Acting)
        (statement : Statement) (position : ℕ) →
        IsReply origin past (record { item = asked caller number acting statement (Ok position); chosen = chosen }) →
        (entry : Entry) × IsOneMore origin past (record { item = asked caller number acting statement (Ok position); chosen = chosen })
        acting statement position entry }
    ensures unchanged { (rules : Rules) (base : List Entry) (log : List Item) (item : Item) →
        ((position : ℕ) → item.reply ≢ ToStatement (Ok position)) → history rules base (log ++ item ∷ []) ≡ history rules base log }
{}

/// The law that a stamp, kept by attempts and resets alone, answers by what the whole log says of the account: its failures
/// are counted since they were last cleared, by the policy that the account has.
pub fn stamps_count_the_log()
    ensures history { (origin : Origin) (past : Past) (account : AuthId) (account_data : AccountData) →
        IsLegalPast origin past → (state_at origin past).account_data account ≡ Some account_data →
        IsHistory account_data.policy (events_of account past) }
    ensures stamp { (origin : Origin) (past : Past) (account : AuthId) (account_data : AccountData) →
        IsLegalPast origin past → (state_at origin past).account_data account ≡ Some account_data →
        (stamp : Stamp) × IsStampOf account_data.policy (events_of account past) stamp }
    ensures answers { (origin : Origin) (past : Past) (account : AuthId) (account_data : AccountData) (stamp : Stamp)
        (moment : ℤ) (right : Bool) →
        IsLegalPast origin past → (state_at origin past).account_data account ≡ Some account_data →
        IsStampOf account_data.policy (events_of account past) stamp → moment_of past ≤ℤ moment →
        answer_of account_data.policy stamp.blocked_at moment right ≡
        answer_of account_data.policy (blocking_failure account_data.policy (events_of account past)) moment right }
    ensures moment { (origin : Origin) (past : Past) (account : AuthId) (account_data : AccountData) (stamp : Stamp) (moment : ℤ) →
        IsLegalPast origin past → IsStampOf account_data.policy (events_of account past) stamp → moment_of past ≤ℤ moment →
        ForSome stamp.blocked_at (λ since. since ≤ℤ moment) }
{}

/// The law that the calls of a caller are numbered from 0 without gaps, where each has the number of those before it.
pub fn calls_have_no_gaps()
    ensures { (log : List Item) (caller : ℕ) → AreCounted log → AreNumberedFrom 0 (calls caller log) }
{}

/// The law that a login chooses one account at most, whatever list the standing accounts are looked up in, and that a legal
/// log therefore says in one way which accounts its logins chose, whichever choice is in use.
pub fn logins_choose_once()
    ensures one { (state : State) (knock : Knock) (one other : Option AuthId) →
        IsChosenAccount state knock one → IsChosenAccount state knock other → one ≡ other }
    ensures log { (origin : Origin) (one other : Past) → IsLegalPast origin one → IsLegalPast origin other →
        log_of one ≡ log_of other → one ≡ other }
{}

/// The law that the worked example of a log of two sessions, in which a refused statement stands between accepted ones, is legal.
pub fn worked_log_is_legal()
    ensures { (held : Held) → IsLegalLog (from_nothing None) (log_of (all_of held)) }
{}
