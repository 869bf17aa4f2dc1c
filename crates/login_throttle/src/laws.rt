//! Where the count of failures begins, what it comes to over all that happened to an account, and what is kept of the
//! empty password. Each law does nothing when it runs.
ghost use Rattle.std.specs.Prelude.{◌≡◌, ◌<◌, ◌≤ℤ◌, ℤ, Bool, List, [], ◌∷◌, IsTrue, false};
ghost use Rattle.std.specs.Option.{ForSome};
ghost use Rattle.acl_names.specs.Verifiers.{empty_verifier};
ghost use Rattle.acl_names.specs.declared.policy.Policy.{Policy};
ghost use Rattle.login_throttle.specs.History.{Answered, Cleared, Event, Follows, IsHistory, IsStampOf, ShowsCount, blocking_failure};
ghost use Rattle.login_throttle.specs.Stamp.{fresh};
ghost use Rattle.login_throttle.specs.Tracking.{answer_of, is_tracked};
ghost use Rattle.login_throttle.specs.declared.stamp.Stamp.{Stamp};
ghost use Rattle.sha2.specs.Sha256.{sha256};

/// The law that a fresh stamp shows the count of an account to which nothing has happened yet, and of one whose
/// failures were just cleared. `attempt` says how a stamp goes on to show it.
pub fn fresh_stamps_show_the_count()
    ensures first { (policy : Policy) (moment : ℤ) → ShowsCount policy [] fresh moment }
    ensures cleared { (policy : Policy) (past : List Event) (moment : ℤ) →
        ShowsCount policy (Cleared ∷ past) fresh moment }
{}

/// The law that stamps count: after each history there is a stamp, and any that attempts and resets can have left, as
/// `attempt` promises, answers and shows by the count of failures alone, and may be handed to `attempt` again.
pub fn stamps_count_failures()
    ensures stamp { (policy : Policy) (past : List Event) → IsHistory policy past →
        (stamp : Stamp) × IsStampOf policy past stamp }
    ensures answers { (policy : Policy) (past : List Event) (stamp : Stamp) (moment : ℤ) (right : Bool) →
        IsHistory policy past → IsStampOf policy past stamp → Follows past moment →
        answer_of policy stamp.blocked_at moment right ≡
        answer_of policy (blocking_failure policy past) moment right }
    ensures shows { (policy : Policy) (past : List Event) (stamp : Stamp) (moment : ℤ) →
        IsTrue (is_tracked policy) → IsHistory policy past → IsStampOf policy past stamp → Follows past moment →
        ShowsCount policy past stamp moment }
    ensures untracked { (policy : Policy) (past : List Event) (stamp : Stamp) →
        is_tracked policy ≡ false → IsStampOf policy past stamp → stamp ≡ fresh }
    ensures moment { (policy : Policy) (past : List Event) (stamp : Stamp) (moment : ℤ) →
        IsStampOf policy past stamp → Follows past moment →
        ForSome stamp.blocked_at (λ since. since ≤ℤ moment) }
    ensures failures { (policy : Policy) (past : List Event) (stamp : Stamp) →
        IsTrue (is_tracked policy) → IsStampOf policy past stamp → stamp.blocked_at ≡ None →
        stamp.failures < policy.attempts }
    ensures history { (policy : Policy) (past : List Event) (stamp : Stamp) (moment : ℤ) (right : Bool) →
        IsHistory policy past → IsStampOf policy past stamp → Follows past moment →
        IsHistory policy (Answered moment (answer_of policy stamp.blocked_at moment right) ∷ past) }
{}

/// The law that what the definitions have for the empty password is its digest.
pub fn empty_password_is_known()
    ensures { sha256 [] ≡ empty_verifier.0 }
{}
