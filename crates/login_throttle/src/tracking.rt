//! What an attempt to log in is answered, and what it leaves.
ghost use Rattle.std.specs.Prelude.{◌≡◌, ◌<◌, ◌≤◌, ◌≤ℤ◌, ℤ, List, ◌∷◌, false, IsTrue, if◌then◌else◌};
ghost use Rattle.std.specs.Option.{ForSome};
ghost use Rattle.login_throttle.specs.Steps.{stamp_after};
ghost use Rattle.login_throttle.specs.History.{Answered, Event, MayLeave, ShowsCount, blocking_failure};
ghost use Rattle.login_throttle.specs.Tracking.{IsWithinLimit, answer_of, is_before, is_blocked, is_tracked, opens_at, seconds_until, stamp_at};

use crate::stamp::{Stamp, reset};
use acl_names::{LockTime, Policy};

// The seconds of a day of PASSWORD_LOCK_TIME.
const DAY: u64 = 86_400;

/// What an attempt to log in is told about its password.
#[derive(Clone, Copy, Debug, PartialEq, Eq, Hash, Drop)]
pub enum Tried {
    /// The password is right, and the account is not blocked.
    Open,
    /// The password is wrong, and the account was not blocked.
    Wrong,
    /// The account is blocked, whatever the password.
    Blocked {
        /// The seconds until it is open again; `None` until it is unlocked.
        left: Option<u32>,
    },
}

fn counts_failures(policy: Policy) -> bool
    ensures { result ≡ is_tracked policy }
{
    policy.attempts != 0 && policy.days != LockTime::Days(0)
}

// The answer as long as a block lasts, and `None` once it has ended.
fn while_blocked(days: LockTime, since: i64, moment: i64) -> Option<Tried>
    requires days { IsWithinLimit days }
    requires moment { since ≤ℤ moment }
    ensures { result ≡ (if is_before moment (opens_at days since)
        then Some (Tried.Blocked (seconds_until (opens_at days since) moment)) else None) }
{
    let LockTime::Days(days) = days else {
        return Some(Tried::Blocked { left: None });
    };
    let whole = u64::from(days) * DAY;
    let passed = moment.abs_diff(since);
    if passed >= whole {
        return None;
    }
    let left = (whole - passed) as u32;
    Some(Tried::Blocked { left: Some(left) })
}

/// Tries a password at an account at a moment, in seconds since 1970-01-01T00:00:00Z, and counts a wrong one.
///
/// The wrong password that blocks the account is itself answered as one. A policy that counts none leaves the stamp.
/// After a login that succeeds the caller resets the stamp.
/// `left` says `count`, `untracked`, `moment` and `failures` at once, as `stamps_count_failures` takes them.
pub fn attempt(policy: Policy, stamp: &mut Stamp, moment: i64, right: bool) -> Tried
    requires attempts { policy.attempts ≤ 32767 }
    requires days { IsWithinLimit policy.days }
    requires moment { ForSome stamp.old.blocked_at (λ since. since ≤ℤ moment) }
    requires failures { IsTrue (is_tracked policy) → stamp.old.blocked_at ≡ None →
        stamp.old.failures < policy.attempts }
    ensures answer { result ≡ answer_of policy stamp.old.blocked_at moment right }
    ensures by_count { (past : List Event) → ShowsCount policy past stamp.old moment →
        result ≡ answer_of policy (blocking_failure policy past) moment right }
    ensures count { IsTrue (is_tracked policy) → (past : List Event) → ShowsCount policy past stamp.old moment →
        (later : ℤ) → moment ≤ℤ later → ShowsCount policy (Answered moment result ∷ past) stamp.new later }
    ensures blocked { IsTrue (is_blocked policy stamp.old.blocked_at moment) → stamp.new ≡ stamp.old }
    ensures opened { result ≡ Tried.Open → stamp.new ≡ stamp_at policy stamp.old moment }
    ensures untracked { is_tracked policy ≡ false → stamp.new ≡ stamp.old }
    ensures moment { ForSome stamp.new.blocked_at (λ since. since ≤ℤ moment) }
    ensures failures { IsTrue (is_tracked policy) → stamp.new.blocked_at ≡ None →
        stamp.new.failures < policy.attempts }
    ensures left { MayLeave policy stamp.old moment result stamp.new }
{
    step(policy, stamp, moment, right)
}

fn step(policy: Policy, stamp: &mut Stamp, moment: i64, right: bool) -> Tried
    requires attempts { policy.attempts ≤ 32767 }
    requires days { IsWithinLimit policy.days }
    requires moment { ForSome stamp.old.blocked_at (λ since. since ≤ℤ moment) }
    requires failures { IsTrue (is_tracked policy) → stamp.old.blocked_at ≡ None →
        stamp.old.failures < policy.attempts }
    ensures answer { result ≡ answer_of policy stamp.old.blocked_at moment right }
    ensures stamp { stamp.new ≡ stamp_after policy (stamp_at policy stamp.old moment) moment result }
    ensures moment { ForSome stamp.new.blocked_at (λ since. since ≤ℤ moment) }
    ensures failures { IsTrue (is_tracked policy) → stamp.new.blocked_at ≡ None →
        stamp.new.failures < policy.attempts }
{
    if counts_failures(policy) {
        if let Some(since) = stamp.blocked_at {
            if let Some(blocked) = while_blocked(policy.days, since, moment) {
                return blocked;
            }
            reset(stamp);
        }
        if !right {
            stamp.failures += 1;
            if stamp.failures == policy.attempts {
                stamp.blocked_at = Some(moment);
            }
        }
    }
    if right { Tried::Open } else { Tried::Wrong }
}
